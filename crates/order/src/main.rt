// Reads an image on standard input and prints the order of its functions, or why it is refused; a refusal is also reported on standard error, with its sentence.
// What is printed is `telling_of` of order_text's specs. Input longer than an image may be is refused for its size and not cut: the buffer holds one byte more.
#![tactic(auto)]

// The answer for an image.
fn answer(rt: &(impl Print + Eprint), image: &[u8]) {
    let mut out = [0; 65536];
    let said = order_text::tell_of(image, &mut out);
    program_streams::write(rt, "order", &out[..said.count]);
    if let Err(refusal) = said.ended {
        program_streams::refusal(rt, "order", refusal);
    }
}

fn main(rt: HostRuntime) {
    program_streams::with_image(&rt, "order", |image| answer(&rt, image));
}

// Reads an image on standard input, links it, and writes the linked image to standard output. A refusal or a failed read is one line on standard error,
// and nothing is written. Input longer than an image may be is refused for its size and not cut: the buffer holds one byte more.
#![tactic(auto)]

// The linked image, or why there is none.
fn answer(rt: &(impl Print + Eprint), image: &[u8]) {
    let mut output = [0; 65537];
    match link::link(image, &mut output) {
        Ok(count) => {
            program_streams::write(rt, "link_image", &output[..count as usize]);
        }
        Err(refusal) => program_streams::refusal(rt, "link_image", refusal),
    }
}

fn main(rt: HostRuntime) {
    program_streams::with_image(&rt, "link_image", |image| answer(&rt, image));
}

// Reads an image on standard input and says what intake answers: `accepted`, or `refused` and the number; a refusal is also reported on standard error, with its
// sentence. Input longer than an image may be is refused for its size and not cut: the buffer holds one byte more.
#![tactic(auto)]

// The answer for an image.
fn answer(rt: &(impl Print + Eprint), image: &[u8]) {
    match intake::intake(image) {
        Ok(_) => {
            program_streams::write(rt, "check_image", b"accepted\n");
        }
        Err(refusal) => {
            let number = refusal.number();
            program_streams::unwritten(rt, "check_image", println!(rt; "refused {number}"));
            program_streams::refusal(rt, "check_image", refusal);
        }
    }
}

fn main(rt: HostRuntime) {
    program_streams::with_image(&rt, "check_image", |image| answer(&rt, image));
}

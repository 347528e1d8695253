// Words for the one who runs a program.
pub fn say(rt: &impl Eprint, words: &str) {
    let _ = rt.eprint(words);
}

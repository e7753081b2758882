// What the program writes: words, and numbers with a name.
pub fn words(rt: &impl Print, s: &[u8]) {
    let _ = rt.write_all(s);
}

pub fn named(rt: &impl Print, name: &[u8], n: usize) {
    words(rt, name);
    let _ = rt.print(n);
}

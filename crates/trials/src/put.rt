// Writes on standard output. Where a write fails, what comes after it is still tried.
use causes::Refusal;
use std::io::Stdout;

pub fn bytes(out: Stdout, s: &[u8]) {
    let _ = out.write_all(s);
}

// A number, with a space before it.
pub fn word(out: Stdout, n: u64) {
    let _ = print!(out; " {n}");
}

// Eight hexadecimal digits.
pub fn hex_word(out: Stdout, n: u32) {
    let _ = print!(out; " {n:08x}");
}

// Sixteen hexadecimal digits.
pub fn hex_long(out: Stdout, n: u64) {
    let _ = print!(out; " {n:016x}");
}

// The first n numbers, or all.
pub fn numbers(out: Stdout, s: &[u32], n: usize) {
    for x in s.iter().take(n) {
        word(out, u64::from(*x));
    }
}

// The first n numbers, or all, as words of eight hexadecimal digits.
pub fn words(out: Stdout, s: &[u32], n: usize) {
    for x in s.iter().take(n) {
        hex_word(out, *x);
    }
}

pub fn refused(out: Stdout, refusal: Refusal) {
    let number = refusal.number();
    let place = refusal.place();
    let _ = print!(out; " refused {number} {place}");
}

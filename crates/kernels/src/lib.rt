// Kernels on bytes and 64-bit words. A slice is a polynomial over GF(2): the number whose digits, lowest first, are its bytes (`value 8`)
// or its words (`value 64`). The plain definition stands beside each kernel: the public contracts are equations of xor, rem and
// shifts (* 2 ^ k, / 2 ^ k) on these numbers, and say nothing of how it is done.
// Numbers that come back: a row has 13 words, and a remainder 12 of them, for no generator has a degree above 768 = 12 * 64 (D in the
// laws); 520 bytes are the room of a word of at most 512 bytes with 8 more, for what is moved up past its end.
#![tactic(auto)]

pub mod bits; // bits read out of bytes
pub mod bytes; // polynomials in bytes: copied, moved, added
pub mod row; // rows of 13 words: moved, added

//! What texts say of a sample's value.
//!
//! The expected numbers are those of Python's `decimal` with a precision of 18, rounding half to
//! even. The places were found by a regular expression for what begins a number.

/// A text and what it says: `says text -> m e` for the sample `m * 10^e` in normal form,
/// `too wide`, `no number`, or the place at which it is `wrong`. A text with `|` is a front, a
/// digit, how many times it stands, and a rear.
pub(crate) const SAMPLE_TEXTS: &str = r"says 0 -> 0 0
says -0 -> 0 0
says +0 -> 0 0
says 00.10 -> 1 -1
says .5 -> 5 -1
says -.5 -> -5 -1
says 5. -> 5 0
says +5.e1 -> 5 1
says 123.456 -> 123456 -3
says 0.000027667 -> 27667 -9
says 2.7667e-05 -> 27667 -9
says 1.8446744073709552e+19 -> 18446744073709552 3
says 1e5 -> 1 5
says 1E5 -> 1 5
says 1e+5 -> 1 5
says 1e-5 -> 1 -5
says -0.0e7 -> 0 0
says 0e999999999999999999999 -> 0 0
says 1e350 -> 1 350
says 1e-350 -> 1 -350
says 0.1e351 -> 1 350
says 100e-352 -> 1 -350
says 1000000000000000000000e-20 -> 1 1
says 999999999999999999 -> 999999999999999999 0
says 0.1234567890123456785 -> 123456789012345678 -18
says 0.1234567890123456775 -> 123456789012345678 -18
says 0.12345678901234567850000000000000000000000001 -> 123456789012345679 -18
says 0.12345678901234567849999999999999999999999999 -> 123456789012345678 -18
says 999999999999999999.5 -> 1 18
says -999999999999999999.5e-10 -> -1 8
says 9999999999999999994 -> 999999999999999999 1
says 9999999999999999995 -> 1 19
says 1234567890123456789 -> 123456789012345679 1
says 12345678901234567890123 -> 123456789012345679 5
says 9999999999999999995e331 -> 1 350
says 9999999999999999995e332 -> too wide
says 1e400 -> too wide
says 1e-400 -> too wide
says -1e351 -> too wide
says 1e-351 -> too wide
says 1e123456789012345678901234567890 -> too wide
says -1e-123456789012345678901234567890 -> too wide
says 9999999999999999995e333 -> too wide
says nan -> no number
says nAn -> no number
says NaN -> no number
says inf -> no number
says +Inf -> no number
says -inf -> no number
says InFiNiTy -> no number
says +infinity -> no number
says -INFINITY -> no number
says  -> wrong 0
says + -> wrong 1
says - -> wrong 1
says . -> wrong 1
says -. -> wrong 2
says +. -> wrong 2
says 1e -> wrong 2
says 1e+ -> wrong 3
says 1.e -> wrong 3
says 1e5. -> wrong 3
says 0x10 -> wrong 1
says 1_000 -> wrong 1
says  1 -> wrong 0
says 1  -> wrong 1
says --1 -> wrong 1
says +-1 -> wrong 1
says 1..2 -> wrong 2
says 1.2.3 -> wrong 3
says 1- -> wrong 1
says 1e5e5 -> wrong 3
says e5 -> wrong 0
says .e5 -> wrong 1
says infin -> wrong 5
says +nan -> wrong 1
says -n -> wrong 1
says nano -> wrong 3
says infinit -> wrong 7
says infinityx -> wrong 8
says in -> wrong 2
says i1 -> wrong 1
says +i+ -> wrong 2
says ١ -> wrong 0
says 1\t -> wrong 1
says |0|300|7 -> 7 0
says 0.|0|349|5 -> 5 -350
says |1|5000|e-4990 -> 111111111111111111 -8
says 0.|0|4999|1e5000 -> 1 0
says -|9|5000|.5e-5000 -> -1 0
says +7|0|5000|e-5000 -> 7 0
says |1|5000| -> too wide
";

// Theorems on the definitions: each function's contract states one, and its body does nothing.
ghost use Rattle.aes.specs.Examples.{WorkedExamples};
ghost use Rattle.aes.specs.Laws.{MultiplicativeInverse, BoxesInvert, Inverts};

// A byte but {00} times its inverse is {01}.
pub fn inverse_is_multiplicative()
    ensures { MultiplicativeInverse }
{}

// The S-box and the inverse S-box undo each other.
pub fn boxes_invert()
    ensures { BoxesInvert }
{}

// Under every key InvCipher and Cipher undo each other, and take 16 bytes to 16 bytes.
pub fn inverse_cipher_inverts()
    ensures { Inverts }
{}

// The worked examples of FIPS 197.
pub fn fips_197_examples()
    ensures { WorkedExamples }
{}

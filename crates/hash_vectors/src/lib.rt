#![tactic(auto)]

// The definitions of SHA-256, SHA-3, HMAC, AES and CMAC at published examples of up to three blocks, computed by the prover: a function carries them in its
// contract.
ghost use Rattle.hash_vectors.specs.Aes.{AesExamples};
ghost use Rattle.hash_vectors.specs.Cmac.{CmacExamples};
ghost use Rattle.hash_vectors.specs.Mac.{HmacExamples};
ghost use Rattle.hash_vectors.specs.Sha.{ShaExamples};
ghost use Rattle.hash_vectors.specs.Sha3.{Sha3Examples};

// Does nothing; that it is proved says that the definitions give the published values.
pub fn published_examples()
    ensures { (ShaExamples × (Sha3Examples × HmacExamples)) × (AesExamples × CmacExamples) }
{}

//! Laws over the definitions, each the contract of a function that does nothing.
ghost use Rattle.std.specs.Prelude.{◌≡◌, ℕ, List, Ok, true, false};
ghost use Rattle.base64.specs.GeneralPurpose.{IsBytes};
ghost use Rattle.kmip_pem.specs.declared.labels.Label.{Label};
ghost use Rattle.kmip_pem.specs.Labels.{is_private, is_public};
ghost use Rattle.kmip_pem.specs.Pem.{Pem, IsPem, pem_in};
ghost use Rattle.kmip_pem.specs.Written.{pem_text};

/// The answer of a text is the block that the text has, if it has one.
pub fn answer_is_the_block()
    ensures found { (text : List ℕ) (label : Label) (bytes : List ℕ) →
        IsPem text label bytes → pem_in text ≡ Ok (record { label = label; bytes = bytes }) }
    ensures real { (text : List ℕ) (pem : Pem) → IsBytes text → IsBytes pem.bytes →
        pem_in text ≡ Ok pem → IsPem text pem.label pem.bytes }
{}

/// No text has two readings.
pub fn one_reading()
    ensures { (text : List ℕ) (a b : Label) (x y : List ℕ) →
        IsPem text a x → IsPem text b y → (a ≡ b) × (x ≡ y) }
{}

/// Reading undoes writing.
pub fn written_back()
    ensures { (label : Label) (bytes : List ℕ) →
        IsBytes bytes → IsPem (pem_text label bytes) label bytes }
{}

/// What is written as a private key is no public key's PEM, and no certificate's.
pub fn private_is_apart()
    ensures public { (label other : Label) (bytes found : List ℕ) → is_private label ≡ true →
        IsPem (pem_text label bytes) other found → is_public other ≡ false }
    ensures certificate { (label : Label) (bytes found : List ℕ) → is_private label ≡ true →
        IsPem (pem_text label bytes) Label.Certificate found → ⊥ }
{}

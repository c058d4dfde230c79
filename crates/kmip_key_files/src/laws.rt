//! Laws over the definitions, each the contract of a function that does nothing.
ghost use Rattle.std.specs.Prelude.{◌≡◌, ℕ, List, Ok, true};
ghost use Rattle.base64.specs.GeneralPurpose.{IsBytes};
ghost use Rattle.kmip_der.specs.Keys.{is_private};
ghost use Rattle.kmip_pem.specs.declared.labels.Label.{Label};
ghost use Rattle.kmip_pem.specs.Pem.{Pem, pem_in};
ghost use Rattle.kmip_pem.specs.Written.{pem_text};
ghost use Rattle.kmip_key_files.specs.declared.told.Told.{Told};
ghost use Rattle.kmip_key_files.specs.declared.block.Block.{Block};
ghost use Rattle.kmip_key_files.specs.Forms.{object_type};
ghost use Rattle.kmip_key_files.specs.Told.{told_of, told_in_der, told_in_pem};
ghost use Rattle.kmip_key_files.specs.Formats.{File, is_same_key, file_in_format};
ghost use Rattle.kmip_key_files.specs.Files.{file_of};

/// What is a private key is told and written as a private key, whose Object Type is 4, and never as
/// a public key or a certificate: in DER, in PEM, as what its label says, and from a server.
pub fn private_is_apart()
    ensures label { (label : Label) (der : List ℕ) (told : Told) → is_private der ≡ true →
        told_of label der ≡ Ok told → object_type told.label ≡ 4 }
    ensures der { (der : List ℕ) (told : Told) → is_private der ≡ true →
        told_in_der der ≡ Ok told → object_type told.label ≡ 4 }
    ensures pem { (text : List ℕ) (pem : Pem) (told : Told) → is_private pem.bytes ≡ true →
        pem_in text ≡ Ok pem → told_in_pem text ≡ Ok told → object_type told.label ≡ 4 }
    ensures written { (block : Block) (file : File) → is_private file.der ≡ true →
        file_of block ≡ Ok file → object_type file.label ≡ 4 }
{
    kmip_der::private_is_apart();
}

/// What is written is of its Object Type, so no private key has the label of another object. It is
/// what its label says, and its text is told.
pub fn written_is_read()
    ensures object_type { (block : Block) (file : File) → file_of block ≡ Ok file →
        object_type file.label ≡ block.object_type }
    ensures der { (block : Block) (file : File) → file_of block ≡ Ok file →
        (told : Told) × (told_of file.label file.der ≡ Ok told) }
    ensures pem { (block : Block) (file : File) → file_of block ≡ Ok file → IsBytes file.der →
        (told : Told) × (told_in_pem (pem_text file.label file.der) ≡ Ok told) }
{
    kmip_pem::written_back();
    kmip_pem::answer_is_the_block();
}

/// A key in another format is of the same Object Type, and the same is told of it.
pub fn format_keeps_the_key()
    ensures object_type { (told : Told) (der : List ℕ) (format : ℕ) (file : File) →
        file_in_format told der format ≡ Ok file → object_type file.label ≡ object_type told.label }
    ensures same { (told : Told) (der : List ℕ) (format : ℕ) (file : File) →
        file_in_format told der format ≡ Ok file →
        (now : Told) × (told_of file.label file.der ≡ Ok now) ×
        (is_same_key told.key now.key ≡ true) }
{}

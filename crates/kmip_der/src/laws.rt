//! Laws over the definitions, each the contract of a function that does nothing.
ghost use Rattle.std.specs.Prelude.{◌≡◌, ℕ, List, [], ◌∷◌, ◌++◌, Some, true, false};
ghost use Rattle.kmip_der.specs.Der.{Element, element, element_in, bits_of};
ghost use Rattle.kmip_der.specs.Curve.{Curve, curve_in};
ghost use Rattle.kmip_der.specs.CurveTable.{curves};
ghost use Rattle.kmip_der.specs.Keys.{known, rsa_public, rsa_private, sec1_curve, spki, is_point};
ghost use Rattle.kmip_der.specs.Keys.{ec_known, is_private, is_public, is_certificate};
ghost use Rattle.kmip_der.specs.Write.{digits_of, with_sign, rsa_public_der, rsa_private_der};
ghost use Rattle.kmip_der.specs.Write.{sec1_der, spki_der, ec_algorithm};

/// A private key is no public key and no certificate, whichever format each is in.
pub fn private_is_apart()
    ensures public { (der : List ℕ) → is_private der ≡ true → is_public der ≡ false }
    ensures certificate { (der : List ℕ) → is_private der ≡ true → is_certificate der ≡ false }
{}

/// Reading undoes writing: an element that is written is read, with what stands behind it.
pub fn elements_back()
    ensures { (tag : ℕ) → (contents rest : List ℕ) →
        element_in (element tag contents ++ rest) ≡
        Some (record { tag = tag; contents = contents; behind = rest }) }
{}

/// Reading undoes writing: a key by its parts is a key, of the bits of its modulus or of its curve.
pub fn keys_back()
    ensures rsa_public { (n e : List ℕ) →
        rsa_public (rsa_public_der n e) ≡ Some (known 4 (bits_of (with_sign (digits_of n)))) }
    ensures rsa_private { (n a b c d e f g : List ℕ) →
        rsa_private (rsa_private_der (n ∷ a ∷ b ∷ c ∷ d ∷ e ∷ f ∷ g ∷ [])) ≡
        Some (known 4 (bits_of (with_sign (digits_of n)))) }
    ensures ec_private { (curve : Curve) → (number : List ℕ) →
        curve_in curves curve.name ≡ Some curve →
        sec1_curve (sec1_der curve number) ≡ Some curve }
    ensures ec_public { (curve : Curve) → (point : List ℕ) →
        curve_in curves curve.name ≡ Some curve → is_point curve point ≡ true →
        spki (spki_der (ec_algorithm curve) point) ≡ Some (ec_known curve) }
{}

//! The curves that KMIP has names for, by their names in DER and by their numbers in KMIP.
ghost use Rattle.std.specs.Prelude.{◌≡◌, map, option_map};
ghost use Rattle.kmip_der.specs.Curve.{curve_view, curve_in, curve_with};
ghost use Rattle.kmip_der.specs.CurveTable.{curves};

use crate::curve_table::CURVES;

/// A curve.
#[derive(Clone, Copy, Drop)]
pub struct Curve {
    /// The contents of its object identifier.
    pub name: &'static [u8],
    /// Its number among KMIP's recommended curves: KMIP 1.2, 9.1.3.2.5.
    pub number: u32,
    /// The bits of its field, which are its Cryptographic Length.
    pub bits: u16,
    /// How many bytes the number of a private key has: RFC 5915, 3.
    pub octets: u8,
}

/// The table, which is that of specs.
fn table() -> &'static [Curve]
    ensures { map curve_view result.now ≡ curves }
{
    CURVES
}

/// The curve with this name among rows.
fn curve_in<'a>(rows: &'a [Curve], name: &[u8]) -> Option<&'a Curve>
    ensures { option_map (λ curve. curve_view curve.now) result ≡
        curve_in (map curve_view rows.now) name.now }
{
    match rows {
        [] => None,
        [first, rest @ ..] => {
            if first.name == name {
                Some(first)
            } else {
                curve_in(rest, name)
            }
        }
    }
}

/// The curve with this number among rows.
fn curve_with<'a>(rows: &'a [Curve], number: u32) -> Option<&'a Curve>
    ensures { option_map (λ curve. curve_view curve.now) result ≡
        curve_with (map curve_view rows.now) number }
{
    match rows {
        [] => None,
        [first, rest @ ..] => {
            if first.number == number {
                Some(first)
            } else {
                curve_with(rest, number)
            }
        }
    }
}

/// The curve with this name.
pub fn curve_named(name: &[u8]) -> Option<&'static Curve>
    ensures { option_map (λ curve. curve_view curve.now) result ≡ curve_in curves name.now }
{
    curve_in(table(), name)
}

/// The curve with this number.
pub fn curve_numbered(number: u32) -> Option<&'static Curve>
    ensures { option_map (λ curve. curve_view curve.now) result ≡ curve_with curves number }
{
    curve_with(table(), number)
}

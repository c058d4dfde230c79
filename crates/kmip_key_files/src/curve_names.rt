//! The usual names of curves.
ghost use Rattle.std.specs.Prelude.{◌≡◌, map};
ghost use Rattle.kmip_key_files.specs.CurveNames.{named_view, number_in};
ghost use Rattle.kmip_key_files.specs.CurveNameTable.{names};

use crate::curve_name_table::NAMES;

/// A name of a curve.
#[derive(Clone, Copy, Drop)]
pub(crate) struct Named {
    /// As it is written.
    pub name: &'static [u8],
    /// The curve's number: KMIP 1.2, 9.1.3.2.5.
    pub number: u32,
}

/// The table, which is that of specs.
fn table() -> &'static [Named]
    ensures { map named_view result.now ≡ names }
{
    NAMES
}

/// The number of the curve with this name among rows.
fn number_in(rows: &[Named], name: &[u8]) -> Option<u32>
    ensures { result ≡ number_in (map named_view rows.now) name.now }
{
    match rows {
        [] => None,
        [first, rest @ ..] => {
            if first.name == name {
                Some(first.number)
            } else {
                number_in(rest, name)
            }
        }
    }
}

/// The number of the curve with this name in KMIP 1.2, in openssl or in SEC 2, as `P-256`, `prime256v1`
/// and `secp256r1`.
pub fn curve_called(name: &[u8]) -> Option<u32>
    ensures { result ≡ number_in names name.now }
{
    number_in(table(), name)
}

//! Elements of DER (X.690, 8.1 and 10.1), and the numbers in them (8.3).
ghost use Rattle.std.specs.Prelude.{◌≡◌, ℕ, option_map};
ghost use Rattle.kmip_der.specs.Der.{length_in, element_in, tagged, only, natural_in, is_natural};
ghost use Rattle.kmip_der.specs.Der.{past, at_most, bits_of_byte, bits_of};
ghost use Rattle.kmip_der.specs.Der.{Length as TheLength, Element as TheElement, at_least};

/// A length, and what stands behind it.
#[derive(Clone, Copy, Drop)]
struct Length<'a> {
    len: usize,
    behind: &'a [u8],
}

/// An element: its tag, its contents, and what stands behind it.
#[derive(Clone, Copy, Drop)]
pub struct Element<'a> {
    /// The tag, with the bit of a structure.
    pub tag: u8,
    /// The contents.
    pub contents: &'a [u8],
    /// What stands behind the element.
    pub behind: &'a [u8],
}

/// A length that is not one of fewer bytes.
fn at_least<'a>(most: usize, len: usize, behind: &'a [u8]) -> Option<Length<'a>>
    ensures { option_map (λ l. record { len = l.len; behind = l.behind.now }) result ≡
        at_least most len behind.now }
{
    if len < most {
        return None;
    }
    Some(Length { len, behind })
}

/// The length at the front of bytes.
fn length_in<'a>(bytes: &'a [u8]) -> Option<Length<'a>>
    ensures { option_map (λ l. record { len = l.len; behind = l.behind.now }) result ≡
        length_in bytes.now }
{
    match bytes {
        [first, behind @ ..] if *first < 128 => Some(Length {
            len: *first as usize,
            behind,
        }),
        [129, a, behind @ ..] => at_least(128, *a as usize, behind),
        [130, a, b, behind @ ..] => at_least(256, *a as usize * 256 + *b as usize, behind),
        [131, a, b, c, behind @ ..] => at_least(
            65536,
            *a as usize * 65536 + (*b as usize * 256 + *c as usize),
            behind,
        ),
        [132, a, b, c, d, behind @ ..] => at_least(
            16777216,
            *a as usize * 16777216 + (*b as usize * 65536 + (*c as usize * 256 + *d as usize)),
            behind,
        ),
        _ => None,
    }
}

/// The first element of bytes.
pub fn element_in<'a>(bytes: &'a [u8]) -> Option<Element<'a>>
    ensures { option_map
        (λ e. record { tag = e.tag; contents = e.contents.now; behind = e.behind.now }) result ≡
        element_in bytes.now }
{
    let [tag, rest @ ..] = bytes else {
        return None;
    };
    let Length { len, behind } = length_in(rest)?;
    if len > behind.len() {
        return None;
    }
    Some(Element {
        tag: *tag,
        contents: &behind[..len],
        behind: &behind[len..],
    })
}

/// The first element, where it has this tag.
pub fn tagged<'a>(tag: u8, bytes: &'a [u8]) -> Option<Element<'a>>
    ensures { option_map
        (λ e. record { tag = e.tag; contents = e.contents.now; behind = e.behind.now }) result ≡
        tagged tag bytes.now }
{
    let found = element_in(bytes)?;
    if found.tag == tag { Some(found) } else { None }
}

/// The contents of an element with this tag, behind which nothing stands.
pub fn only<'a>(tag: u8, bytes: &'a [u8]) -> Option<&'a [u8]>
    ensures { option_map (λ c. c.now) result ≡ only tag bytes.now }
{
    let found = tagged(tag, bytes)?;
    if found.behind.len() == 0 {
        Some(found.contents)
    } else {
        None
    }
}

/// Whether contents are those of a number that is not negative, in the fewest bytes.
pub fn is_natural(contents: &[u8]) -> bool
    ensures { result ≡ is_natural contents.now }
{
    match contents {
        [] => false,
        [a] => *a < 128,
        [a, b, ..] => *a < 128 && !(*a == 0 && *b < 128),
    }
}

/// The first element, where it is such a number.
pub fn natural_in<'a>(bytes: &'a [u8]) -> Option<Element<'a>>
    ensures { option_map
        (λ e. record { tag = e.tag; contents = e.contents.now; behind = e.behind.now }) result ≡
        natural_in bytes.now }
{
    let found = tagged(2, bytes)?;
    if is_natural(found.contents) {
        Some(found)
    } else {
        None
    }
}

/// What stands behind the first element, where it has this tag, and else all.
pub fn past<'a>(tag: u8, bytes: &'a [u8]) -> &'a [u8]
    ensures { result.now ≡ past tag bytes.now }
{
    match tagged(tag, bytes) {
        Some(found) => found.behind,
        None => bytes,
    }
}

/// Whether bytes are at most one element, which has this tag.
pub fn at_most(tag: u8, bytes: &[u8]) -> bool
    ensures { result ≡ at_most tag bytes.now }
{
    past(tag, bytes).len() == 0
}

/// How many bits a byte has.
fn bits_of_byte(a: u8) -> u128
    ensures { result ≡ bits_of_byte a }
{
    if a < 1 {
        0
    } else if a < 2 {
        1
    } else if a < 4 {
        2
    } else if a < 8 {
        3
    } else if a < 16 {
        4
    } else if a < 32 {
        5
    } else if a < 64 {
        6
    } else if a < 128 {
        7
    } else {
        8
    }
}

/// How many bits a number has.
pub fn bits_of(number: &[u8]) -> u128
    ensures { result ≡ bits_of number.now }
{
    match number {
        [] => 0,
        [0] => 0,
        [0, b, more @ ..] => bits_of_byte(*b) + 8 * more.len() as u128,
        [a, rest @ ..] => bits_of_byte(*a) + 8 * rest.len() as u128,
    }
}

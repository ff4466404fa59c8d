// The same texts in a lent slice: each function puts its bytes over what stands there from a place on, and answers the place
// behind them. A caller with no room for a text of its own calls these, or one whose text goes among bytes that it has. What
// stands before the place and behind the bytes put stays so, as `sets` says. The room that they require a caller knows by counting,
// as `answer_lines::lent` does.
ghost use Rattle.std.specs.Prelude.{◌≡◌, ◌+◌, ◌*◌, ◌≤◌, length};
ghost use Rattle.std.proofs.lemmas.List.Edits.{sets};
ghost use Rattle.text_format.specs.Decimal.{decimal};
ghost use Rattle.text_format.specs.Fields.{field, fields};

use arrayvec::ArrayVec;

// These bytes.
#[tactic(auto, using(crate::proofs::Behind::put_sets))]
pub fn put(text: &mut [u8], at: usize, bytes: &[u8]) -> usize
    requires { at + length bytes.now ≤ length text.old }
    ensures end { result ≡ at + length bytes.now }
    ensures text { text.new ≡ sets text.old at bytes.now }
{
    let end = at + bytes.len();
    text[at..end].copy_from_slice(bytes);
    end
}

// The decimal digits of a number.
pub fn put_number(text: &mut [u8], at: usize, n: u32) -> usize
    requires { at + 10 ≤ length text.old }
    ensures end { result ≡ at + length (decimal n) }
    ensures most { result ≤ at + 10 }
    ensures text { text.new ≡ sets text.old at (decimal n) }
{
    let mut digits = ArrayVec::<u8, 10>::new();
    crate::put_number(&mut digits, n);
    put(text, at, &digits)
}

// A space and a number.
#[tactic(auto, unfolding(text_format::specs::Fields::field), using(crate::proofs::Behind::put_behind))]
pub fn put_field(text: &mut [u8], at: usize, n: u32) -> usize
    requires { at + 11 ≤ length text.old }
    ensures end { result ≡ at + length (field n) }
    ensures most { result ≤ at + 11 }
    ensures text { text.new ≡ sets text.old at (field n) }
{
    let end = put(text, at, b" ");
    put_number(text, end, n)
}

// A field for each of these numbers.
pub fn put_fields(text: &mut [u8], at: usize, numbers: &[u32]) -> usize
    requires { at + 11 * length numbers.now ≤ length text.old }
    ensures end { result ≡ at + length (fields numbers.now) }
    ensures most { result ≤ at + 11 * length numbers.now }
    ensures text { text.new ≡ sets text.old at (fields numbers.now) }
{
    let mut end = at;
    for &n in numbers {
        end = put_field(text, end, n);
    }
    end
}

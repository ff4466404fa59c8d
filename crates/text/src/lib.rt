// Numbers and fields as text: each function appends its bytes to a text of fixed room, which a program makes by value. A
// caller with no room for a text of its own has a lent slice, and `lent` puts the same bytes into that. What they require,
// their callers know by counting: a word has at most ten digits. `answer_lines` and the programs call them.
#![tactic(auto)]

pub mod lent;

ghost use Rattle.std.specs.Prelude.{◌≡◌, ◌+◌, ◌*◌, ◌≤◌, ◌++◌, length};
ghost use Rattle.arrayvec.specs.ArrayVec.{array_vec_len};
ghost use Rattle.text_format.specs.Decimal.{decimal};
ghost use Rattle.text_format.specs.Fields.{field, fields};

use arrayvec::ArrayVec;

// These bytes.
pub fn put<const N: usize>(text: &mut ArrayVec<u8, N>, bytes: &[u8])
    requires { array_vec_len text.old + length bytes.now ≤ N }
    ensures text { text.new.items ≡ text.old.items ++ bytes.now }
    ensures len { array_vec_len text.new ≡ array_vec_len text.old + length bytes.now }
{
    let appended = text.try_extend_from_slice(bytes);
    prove!(appended.is_ok());
}

// The decimal digits of a number.
#[tactic(auto, using(text_format::proofs::Digits::digits_decimal, text_format::proofs::Digits::decimal_short))]
pub fn put_number<const N: usize>(text: &mut ArrayVec<u8, N>, n: u32)
    requires { array_vec_len text.old + 10 ≤ N }
    ensures text { text.new.items ≡ text.old.items ++ decimal n }
    ensures most { array_vec_len text.new ≤ array_vec_len text.old + 10 }
{
    let mut digits = [0u8; 20];
    let k = io::decimal(n as u64, &mut digits);
    put(text, &digits[..k]);
}

// A space and a number.
#[tactic(auto, unfolding(text_format::specs::Fields::field))]
pub fn put_field<const N: usize>(text: &mut ArrayVec<u8, N>, n: u32)
    requires { array_vec_len text.old + 11 ≤ N }
    ensures text { text.new.items ≡ text.old.items ++ field n }
    ensures most { array_vec_len text.new ≤ array_vec_len text.old + 11 }
{
    put(text, b" ");
    put_number(text, n);
}

// A field for each of these numbers.
pub fn put_fields<const N: usize>(text: &mut ArrayVec<u8, N>, numbers: &[u32])
    requires { array_vec_len text.old + 11 * length numbers.now ≤ N }
    ensures text { text.new.items ≡ text.old.items ++ fields numbers.now }
    ensures most { array_vec_len text.new ≤ array_vec_len text.old + 11 * length numbers.now }
{
    for &n in numbers {
        put_field(text, n);
    }
}

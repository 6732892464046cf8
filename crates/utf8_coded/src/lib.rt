// The call on a text, answered by a code and by a value put to the start of a lent buffer (include/scp.h).
#![tactic(auto)]

ghost use Rattle.std.specs.Prelude.{◌≡◌, length};
ghost use Rattle.boundary.specs.Boundary.{code_of, within, out_after};
ghost use Rattle.utf8_coded.specs.Boundary.{text_numbers};

// How many bytes come before the place where the text stops being well-formed UTF-8.
pub fn valid_up_to(text: &[u8], out: &mut [u64]) -> u64
    ensures value { result ≡ code_of (within (length out.old) (text_numbers text.now)) }
    ensures out_after { out.new ≡ out_after out.old (within (length out.old) (text_numbers text.now)) }
{
    let n = utf8::valid_up_to(text);
    boundary::give(out, &[n as u64])
}

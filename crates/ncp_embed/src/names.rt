//! The names of the result codes.
ghost use Rattle.std.specs.Prelude.{◌≡◌};
ghost use Rattle.ncp_results.specs.Names.{answer_among, all_answers};
ghost use Rattle.ncp_embed.specs.Names.{name_code, name_over, size_of_name};

use ncp_results::{DONE, NOTHING, ResultCode, SHORT_BUFFER};

// Writes the name of a result code, if there is one.
fn write_name(answer: Option<ResultCode>, out: &mut [u8], bytes: &mut usize) -> u32
    ensures code { result ≡ name_code answer out.old }
    ensures name { out.new ≡ name_over answer out.old }
    ensures bytes { bytes.new ≡ size_of_name answer out.old bytes.old }
{
    let Some(answer) = answer else {
        return NOTHING;
    };
    let name = answer.name().as_bytes();
    if out.len() < name.len() {
        return SHORT_BUFFER;
    }
    out[..name.len()].copy_from_slice(name);
    *bytes = name.len();
    DONE
}

/// Writes the name of a result code. `NOTHING` if no function returns that number.
#[unsafe(no_mangle)]
pub extern "C" fn ncp_embed_name(code: u32, out: &mut [u8], bytes: &mut usize) -> u32
    ensures code { result ≡ name_code (answer_among all_answers code) out.old }
    ensures name { out.new ≡ name_over (answer_among all_answers code) out.old }
    ensures bytes { bytes.new ≡ size_of_name (answer_among all_answers code) out.old bytes.old }
{
    write_name(ResultCode::of(code), out, bytes)
}

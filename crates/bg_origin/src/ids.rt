//! The ids of requests.
ghost use Rattle.std.specs.Prelude.{◌≡◌, ◌++◌, IfOk, OnOk};
ghost use Rattle.std.specs.Option.{option_map};
ghost use Rattle.bg_origin.specs.RequestIds as spec;

use crate::kept::first_value;
use bg_http::Fields;
use std::alloc::Global;
use std::io;
use std::io::Write;

/// The id of the request of this number in a run of the program: 32 hexadecimal digits, of which the first 16 are those of the
/// run. The only error is an allocation failure.
pub fn request_id(alloc: Global, run: u64, number: u64) -> io::Result<Vec<u8>>
    ensures { IfOk result (λ id. id.items ≡ spec.id_text run number) }
{
    let mut id = Vec::with_capacity(alloc, 32)?;
    add_hexadecimal(&mut id, run)?;
    add_hexadecimal(&mut id, number)?;
    Ok(id)
}

fn add_hexadecimal(id: &mut Vec<u8>, number: u64) -> io::Result<()>
    ensures { OnOk result (id.new.items ≡ id.old.items ++ spec.hexadecimal number) }
{
    write!(id, "{number:016x}")
}

/// The id that these fields tell an endpoint, if they tell one.
pub fn request_id_in(fields: &Fields) -> Option<&[u8]>
    ensures { option_map (λ id. id.now) result ≡ spec.id_in fields.now }
{
    first_value(fields, b"x-request-id")
}

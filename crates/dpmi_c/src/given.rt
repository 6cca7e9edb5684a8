// What a call is given, from the parts that C hands over.
ghost use Rattle.std.specs.Prelude.{◌≡◌};
ghost use Rattle.dpmi_calls.specs.{Clients.{client_of, given}, Stops.{wanted_in, wanted_of}};

use dpmi_calls::{Client, Wanted};

// A client.
#[inline(always)]
pub(crate) fn client<'a>(file: &'a [u8], keys: &'a [u8], pages: u32, timer: u32) -> Client<'a>
    ensures { given result ≡ client_of file.now keys.now pages timer }
{
    Client {
        file,
        keys,
        pages,
        timer,
    }
}

// What is looked for.
#[inline(always)]
pub(crate) fn wanted<'a>(
    places: &'a [u32],
    bytes: &'a [u32],
    stay_at: u32,
    stay_size: u32,
) -> Wanted<'a>
    ensures { wanted_in result ≡ wanted_of places.now bytes.now stay_at stay_size }
{
    Wanted {
        places,
        bytes,
        stay_at,
        stay_size,
    }
}

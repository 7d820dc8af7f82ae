//! The credentials of one Digest request, made again and again.

ghost use Rattle.std.specs.Prelude.{◌≡◌, ◌==◌, if◌then◌else◌, length, IfOk};
ghost use Rattle.spaces.specs.declared.roster.Method.TheVariants.{Get};
ghost use Rattle.digest_handler.specs.Credentials.{digest_credentials};

use auth_text::{Bytes, Identity, NoMemory};
use digest_handler::respond;
use spaces::{Algorithm, Method, Qop, Terms};
use std::alloc::Global;

const URI: &[u8] = b"/dir/index.html?page=7";

const CLIENT_NONCE: &[u8] = b"f2/wE4q74E6zIJEtWaHKaf5wv/H5QzzpXusqGemxURZJ";

/// The bytes of the credentials with a hash.
const MD5_LEN: usize = 332;

const SHA256_LEN: usize = 368;

fn terms(alloc: Global, algorithm: Algorithm) -> Result<Terms, NoMemory> {
    Ok(Terms {
        algorithm,
        said: true,
        realm: Bytes::from_slice(alloc, b"http-auth@example.org")?,
        nonce: Bytes::from_slice(alloc, b"7ypf/xlj9XXwfDPEoM4URrv/xwf94BcCAzFZH4GiTo0v")?,
        opaque: Some(Bytes::from_slice(alloc, b"FQhe/qaU925kfnzjCev0ciny7QMkPqMAFRtzCUYo5tdS")?),
        qop: Qop::Auth,
        userhash: false,
    })
}

/// Makes the credentials so often, and tells how many of them have this length.
fn made(
    alloc: Global,
    terms: &Terms,
    login: &Identity,
    len: usize,
    times: u32,
) -> Result<u32, NoMemory>
    ensures { IfOk result (λ made. made
        ≡ (if length (digest_credentials terms.now login.now Get URI.now 1 CLIENT_NONCE.now)
        == len then times else 0)) }
{
    let mut made = 0;
    for _request in 0..times {
        let text = respond(alloc, terms, login, Method::Get, URI, 1, CLIENT_NONCE)?;
        if text.len() == len {
            made += 1;
        }
    }
    Ok(made)
}

/// Makes credentials with this hash so often.
pub fn run(alloc: Global, algorithm: Algorithm, times: u32) -> Result<u32, NoMemory> {
    let terms = terms(alloc, algorithm)?;
    let Ok(login) = Identity::new(alloc, b"Mufasa", b"Circle of Life") else {
        return Err(NoMemory);
    };
    let len = match algorithm {
        Algorithm::Md5 => MD5_LEN,
        Algorithm::Sha256 => SHA256_LEN,
    };
    made(alloc, &terms, &login, len, times)
}

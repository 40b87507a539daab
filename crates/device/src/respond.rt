// What the device does for a request.
ghost use Rattle.std.specs.Prelude.{◌≡◌, ◌+◌, ◌<◌, ◌≤◌, ◌⊎◌, [], ◌∷◌, length, MatchOption};
ghost use Rattle.device.specs.Device.{block_at, response, kept_after};

use crate::response::Response;

// A status alone.
fn status(code: u8) -> Response
    ensures { result.items ≡ code ∷ [] }
{
    let mut response = Response::new();
    response.push(code);
    response
}

// Status 0, and a block.
fn with_block(block: &[u8]) -> Response
    requires { length block.now ≡ 16 }
    ensures { result.items ≡ 0 ∷ block.now }
{
    let mut bytes = [0; 17];
    bytes[1..17].copy_from_slice(block);
    Response::from(bytes)
}

// Where the block that a request names begins, if it is kept.
fn place(kept: &[u8], request: &[u8]) -> Option<usize>
    ensures { MatchOption result ((length request.now < 2) ⊎ (length kept.now < block_at request.now + 16)) (λ at. (at ≡ block_at request.now) × (at + 16 ≤ length kept.now)) }
{
    let at = 16 * usize::from(*request.get(1)?);
    (at + 16 <= kept.len()).then_some(at)
}

// The response to a request, and what it asks done to the contents.
#[tactic(auto, using(crate::proofs::Requests::put_block), unfolding(crate::specs::Device::is_read, crate::specs::Device::is_write, crate::specs::Device::response, crate::specs::Device::kept_after))]
pub fn respond(kept: &mut [u8], request: &[u8]) -> Response
    ensures value { result.items ≡ response kept.old request.now }
    ensures few { length result.items ≤ 17 }
    ensures after { kept.new ≡ kept_after kept.old request.now }
{
    let Some(at) = place(kept, request) else {
        return status(255);
    };
    match request {
        [0, _] => with_block(&kept[at..at + 16]),
        [1, _, block @ ..] if block.len() == 16 => {
            kept[at..at + 16].copy_from_slice(block);
            status(0)
        }
        _ => status(255),
    }
}

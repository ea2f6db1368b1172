// The output order of any bytes: intake comes first, then the order, callees first, or the refusal of a ring. A refusal leaves the caller's list as it was.
#![tactic(auto)]

ghost use Rattle.std.specs.Prelude.{◌≡◌};
ghost use Rattle.std.proofs.lemmas.List.Edits.{sets};
ghost use Rattle.order_callees.specs.Gathering.{Known};
ghost use Rattle.model.specs.Refusals.{answer_by};
ghost use Rattle.model.specs.Image.{OrderEnsures};
ghost use Rattle.base_refusals.specs.Numbers.{ended};
ghost use Rattle.order_bytes.specs.Listing.{ListEnsures};

use base_refusals::Refusal;
use base_views::Image;

// The numbers go to the start of `out`, as far as there is room.
fn copy(order: &[u32], out: &mut [u32])
    ensures { out.new ≡ sets out.old 0 order.now }
{
    let n = order.len().min(out.len());
    out[..n].copy_from_slice(&order[..n]);
}

// The order of a module whose callees are functions goes to the start of `out`, as far as there is room: the count of functions, or the refusal of a ring.
fn list(image: Image, out: &mut [u32]) -> Result<u32, Refusal>
    requires { Known image.words.now image.tags.now image.n }
    ensures { ListEnsures (answer_by (λ v. v) (ended result)) out.old out.new image.entry.words.now image.entry.tags.now image.entry.n }
{
    let mut order = [0u32; 256];
    order_callees::order_of(image, &mut order)?;
    let count = base_views::count(image.words, base_views::FUNCTIONS);
    copy(&order[..count], out);
    Ok(count as u32)
}

// The same of any bytes: the count of functions, or the refusal, intake's or that of a ring.
pub fn order(image: &[u8], out: &mut [u32]) -> Result<u32, Refusal>
    ensures { OrderEnsures (answer_by (λ v. v) (ended result)) out.old out.new image.now }
{
    let mut words = [0; 16384];
    let mut tags = [0; 16384];
    let n = intake::take_in(image, &mut words, &mut tags)?;
    list(
        Image {
            words: &words,
            tags: &tags,
            n,
        },
        out,
    )
}

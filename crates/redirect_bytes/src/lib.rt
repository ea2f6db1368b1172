// Redirecting on any bytes, in the image itself. Intake comes first; a refusal leaves every byte.
#![tactic(auto)]

ghost use Rattle.redirect_bytes.specs.Answers.{RedirectFunctionEnsures};

use base_handles::FunctionHandle;
use base_refusals::Refusal;
use redirect_words::{Request, redirect_loaded};

// Calls of the function with the original's name become calls of the function with the replacement's, but for those in the replacement and in the functions
// whose names are omitted; entry points always change. Answers both functions, the original first; the tests are intake's, and then those of `redirect_words`.
pub fn redirect_function(
    image: &mut [u8],
    request: Request,
) -> Result<(FunctionHandle, FunctionHandle), Refusal>
    ensures { RedirectFunctionEnsures result image.old image.new request.entry }
{
    let mut words = [0; 16384];
    let mut tags = [0; 16384];
    let n = intake::take_in(image, &mut words, &mut tags)?;
    redirect_loaded(image, &mut words, &tags, n, request)
}

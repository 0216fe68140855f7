//! The certificate beside a story that is played with none named.

ghost use Rattle.std.specs.Prelude.{◌≡◌, ◌≢◌, ℕ, List, Option, Some, IfErr, IfOk, option_map, take};
ghost use Rattle.zperform.specs.Accepting.{IsNoStory};
ghost use Rattle.zperform.specs.Beside.{CountsBeside, IsFoundBeside, SaysUnused, wants_memory};
ghost use Rattle.zperform.specs.Devices.{held, seen};

use crate::accepting::{AcceptedStory, accept_loaded, load_bytes};
use crate::blame::Blame;
use crate::checking::problem_line;
use crate::files::Files;
use crate::informing::ENDING;
use crate::message::Message;
use crate::outcome::{Failure, Outcome, Problem};
use crate::performing::say;
use std::alloc::Global;
use zbatch::name_beside;
use zfault::Sink;

/// What stands beside a story.
#[derive(Drop)]
pub enum CertificateBeside {
    /// No certificate.
    Absent,
    /// One that the story is accepted with.
    Accepted(AcceptedStory),
    /// One that it isn't accepted with.
    Unaccepted {
        /// The name of its file.
        certificate: String,
        /// Why.
        problem: Problem,
    },
}

/// Looks for the certificate beside a story, of whose file this was read, and whether the story is accepted with it. No story comes of some
/// files, and then none is looked for.
pub fn look_beside<F: Files>(
    alloc: Global,
    file: &[u8],
    name: &str,
    files: &mut F,
) -> Result<CertificateBeside, Problem>
    requires read { (bytes : List ℕ) → F.known files.old name.now ≡ Some bytes → file.now ≡ take 131073 bytes }
    ensures found { IfOk result (IsFoundBeside (held F.known F.failures F.can_fail F.blamed files.old) name.now (F.blamed files.new)) }
    ensures counts { IfOk result (CountsBeside (F.failures files.old) (F.failures files.new)) }
    ensures refused { IfErr result (IsNoStory (F.known files.old name.now)) }
    ensures unfailed { IfErr result (λ problem. (problem ≢ Problem.Failed Failure.File) × (F.failures files.new ≡ F.failures files.old)) }
    ensures kept { F.known files.new ≡ F.known files.old }
    ensures alike { F.can_fail files.new ≡ F.can_fail files.old }
{
    let story = load_bytes(alloc, file)?;
    let certificate = name_beside(alloc, name, ENDING)?;
    if !files.is_there(certificate.as_str()) {
        return Ok(CertificateBeside::Absent);
    }
    match accept_loaded(alloc, story, certificate.as_str(), files) {
        Ok(accepted) => Ok(CertificateBeside::Accepted(accepted)),
        Err(problem) => {
            if wants_memory(&problem) {
                return Err(problem);
            }
            Ok(CertificateBeside::Unaccepted {
                certificate,
                problem,
            })
        }
    }
}

fn wants_memory(problem: &Problem) -> bool
    ensures { result ≡ wants_memory problem.now }
{
    matches!(problem, Problem::Failed(Failure::Memory))
}

/// Says that a certificate isn't used, and why: by its code alone where memory for words is wanting.
pub fn say_unused<E: Sink>(
    alloc: Global,
    certificate: &str,
    problem: Problem,
    blame: Option<&Blame>,
    errors: &mut E,
)
    ensures { SaysUnused certificate.now (option_map (λ b. b.now) blame.entry) problem (seen E.contents E.failures E.waits errors.old) (seen E.contents E.failures E.waits errors.new) }
{
    match problem_line(alloc, certificate, &problem, blame) {
        Ok(line) => say(&line, errors),
        Err(_) => say(Message::of(&Outcome::Stopped(problem)).as_slice(), errors),
    }
}

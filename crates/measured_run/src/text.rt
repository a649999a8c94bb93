//! The text of a run.

ghost use Rattle.std.specs.Prelude.{◌≡◌, ℕ, ◌*◌, ◌≤◌, List, length};
ghost use Rattle.glass_edges.specs.Writes.{Writes};
ghost use Rattle.measured_run.specs.Text.{measure_text};
ghost use Rattle.run_checkpoint.specs.BankEncoding.{BanksStand};
ghost use Rattle.scalar_rule.specs.declared.sample.Sample.{Sample};

use crate::run::Done;
use glass_edges::{Fault, Sink};
use sums_report::{SumsHead, write_sums};

/// The words of the first line that a run doesn't have: the number of samples, the rule's word, and the digest
/// of its plan in hexadecimal.
#[derive(Clone, Copy)]
pub struct Title<'a> {
    pub samples: u32,
    pub rule: &'a [u8],
    pub digest: &'a [u8],
}

/// Puts the text of the sums of a run, of the first samples. Takes no memory.
///
/// # Errors
///
/// Where the output failed; it has then taken a prefix of the text.
pub fn write_text<O: Sink>(out: &mut O, done: &Done, title: &Title) -> Result<(), Fault>
    requires samples { title.now.samples ≤ 64 * length done.now.plans }
    requires rule { length title.now.rule.now ≤ 64 }
    requires digest { length title.now.digest.now ≤ 64 }
    ensures { (starts : List (ℕ → Sample)) → BanksStand done.now.plans starts done.now.bases
        → Writes O.Sink out.old out.new (measure_text done.now.plans starts title.now.samples title.now.rule.now
        title.now.digest.now done.now.every done.now.until) result }
{
    let plan = done.banks[0].plan();
    let head = SumsHead {
        size: plan.lattice().size(),
        slots: plan.slots(),
        samples: title.samples,
        rule: title.rule,
        every: done.course.every,
        from: done.course.from,
        to: done.course.until,
        digest: title.digest,
    };
    write_sums(out, &head, &done.sums)
}

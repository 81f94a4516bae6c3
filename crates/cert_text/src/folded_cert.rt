ghost use Rattle.std.specs.Prelude.{◌≡◌, IfOk};
ghost use Rattle.cert_text.specs.FoldedCerts.{whole_cert};

use plain_data::Items;
use script_blocks::Script;
use source_tree::Cert;
use std::alloc::{AllocError, Global};

/// A certificate whose schedule is kept folded: that of `rest` with `schedule` in place of its own.
#[derive(Drop)]
pub struct FoldedCert {
    pub rest: Cert,
    pub schedule: Script<u32>,
}

// The entries of a schedule one by one, or want of memory.
fn entries_of(alloc: Global, schedule: &Script<u32>) -> Result<Items<u32>, AllocError>
    ensures { IfOk result (λ entries. entries ≡ schedule.now) }
{
    let mut entries = Items::new(alloc);
    for entry in schedule.iter() {
        entries.push(entry)?;
    }
    Ok(entries)
}

impl FoldedCert {
    /// The certificate with its schedule entry by entry, at four bytes for each, or want of memory.
    pub fn unfold(self, alloc: Global) -> Result<Cert, AllocError>
        ensures { IfOk result (λ cert. cert ≡ whole_cert self) }
    {
        let FoldedCert { rest, schedule } = self;
        let schedule = entries_of(alloc, &schedule)?;
        Ok(Cert {
            sources: rest.sources,
            schedule,
        })
    }
}

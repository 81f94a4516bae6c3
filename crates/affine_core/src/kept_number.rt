ghost use Rattle.std.specs.Prelude.{◌≡◌, IfOk};

use plain_data::Boxed;
use std::alloc::{AllocError, Global};
use std::marker::Model;

#[derive(Drop)]
enum Number {
    Narrow(i64),
    Wide(Boxed<i128>),
}

/// A number in 16 bytes that can stand beside pointers. Where it has 64 bits it takes no other memory.
#[derive(Drop)]
pub struct KeptNumber {
    number: Number,
}

impl Model for KeptNumber {
    ghost use Rattle.std.specs.Prelude.{ℤ};
    ghost use Rattle.affine_core.specs.Kept.{kept_number};

    ghost Value = { ℤ };

    ghost view = { λ kept. kept_number kept.number };
}

impl KeptNumber {
    /// The number in few bytes, or want of memory.
    pub fn of(alloc: Global, number: i128) -> Result<KeptNumber, AllocError>
        ensures { IfOk result (λ kept. kept ≡ number) }
    {
        match i64::try_from(number) {
            Ok(narrow) => Ok(KeptNumber {
                number: Number::Narrow(narrow),
            }),
            Err(_) => {
                let number = Number::Wide(Boxed::new(alloc, number)?);
                Ok(KeptNumber { number })
            }
        }
    }

    /// The number.
    pub fn get(&self) -> i128
        ensures { result ≡ self.now }
    {
        match &self.number {
            Number::Narrow(number) => i128::from(*number),
            Number::Wide(number) => *number.get(),
        }
    }
}

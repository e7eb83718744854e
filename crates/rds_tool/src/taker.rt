//! Where the bytes of a reader go.
ghost use Rattle.std.specs.{Prelude.◌++◌, Prelude.◌≡◌, Prelude.IfErr, Prelude.IfOk, Prelude.List, Prelude.Ok, Prelude.OnOk, Prelude.Result, Prelude.ℕ, Thread.IsSync};
ghost use Rattle.rds_code.specs.{Refusals.IsMemoryOrErrOf, declared.error.RdsError.RdsError as AnError};
ghost use Rattle.rds_tool.specs.Inside.Texts.{bytes_of};

use crate::task::Text;
use rds_code::RdsError;
use std::alloc::{AllocError, Global};
use std::thread::Threads;

/// What takes the bytes of a reader, one read after another, and makes a text of all of them.
pub trait Taker<'t>: Sized + Drop {
    /// The bytes that were taken.
    ghost taken: { Self → List ℕ };

    /// The text that is made of all bytes, or their refusal.
    ghost text: { Self → List ℕ → Result (List ℕ) AnError };

    /// Takes these bytes, whose room it may write over.
    fn take<R: Threads + Sync>(
        &mut self,
        rt: &R,
        alloc: Global,
        bytes: &mut [u8],
    ) -> Result<(), AllocError>
        requires { IsSync R.row }
        ensures taken { OnOk result (taken self.new ≡ taken self.old ++ bytes.old) }
        ensures text { OnOk result (text self.new ≡ text self.old) };

    /// The text of the bytes, all of which were taken.
    fn finish<R: Threads + Sync>(self, rt: &R, alloc: Global) -> Result<Text<'t>, RdsError>
        requires { IsSync R.row }
        ensures ok { IfOk result (λ made. text self (taken self) ≡ Ok (bytes_of made)) }
        ensures refused { IfErr result (IsMemoryOrErrOf (text self (taken self))) };
}

impl<'t> Taker<'t> for Vec<u8> {
    ghost taken = { λ bytes. bytes.items };

    ghost text = { λ bytes all. Ok all };

    fn take<R: Threads + Sync>(
        &mut self,
        _rt: &R,
        _alloc: Global,
        bytes: &mut [u8],
    ) -> Result<(), AllocError> {
        self.extend_from_slice(bytes)
    }

    fn finish<R: Threads + Sync>(self, _rt: &R, _alloc: Global) -> Result<Text<'t>, RdsError> {
        Ok(Text::Whole(self))
    }
}

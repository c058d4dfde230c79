// Written by tables/generate.py from tables/*.toml: change these instead.
//! The ways in which an operation ends.

ghost use Rattle.std.specs.Prelude.{◌≡◌, Some, refl};
ghost use Rattle.kmip_enums.specs.ResultStatuses.{result_status_line, result_status_variants};
ghost use Rattle.kmip_enums.specs.ResultStatuses.{result_status_found};

use kmip_shape::Enumeration;
use std::fmt::{self, Display, Formatter, Write};

/// How an operation ended: KMIP 1.0, 9.1.3.2.27.
#[derive(Clone, Copy, PartialEq, Eq, Drop)]
pub enum ResultStatus {
    /// The operation succeeded.
    Success = 0,
    /// The operation failed; the result reason says why.
    OperationFailed = 1,
    /// The operation is not finished; Poll asks for its result.
    OperationPending = 2,
    /// The operation was done and then undone, since another one of the batch failed.
    OperationUndone = 3,
}

impl Enumeration for ResultStatus {
    ghost line = { result_status_line };

    ghost variants = { result_status_variants };

    fn number(self) -> u32 {
        self as u32
    }

    fn from_number(number: u32) -> Option<ResultStatus> {
        match number {
            0 => Some(ResultStatus::Success),
            1 => Some(ResultStatus::OperationFailed),
            2 => Some(ResultStatus::OperationPending),
            3 => Some(ResultStatus::OperationUndone),
            _ => None,
        }
    }

    fn name(self) -> &'static str {
        match self {
            ResultStatus::Success => "Success",
            ResultStatus::OperationFailed => "OperationFailed",
            ResultStatus::OperationPending => "OperationPending",
            ResultStatus::OperationUndone => "OperationUndone",
        }
    }

    ghost found = { result_status_found };

    ghost distinct = { refl };
}

impl Display for ResultStatus {
    ghost output = { λ x. Some (result_status_line x).name };

    fn fmt<W: Write>(&self, f: &mut Formatter<W>) -> fmt::Result {
        f.write_str(self.name())
    }
}

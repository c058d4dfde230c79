// Written by tables/generate.py from tables/*.toml: change these instead.
//! The functions of a Query.

ghost use Rattle.std.specs.Prelude.{◌≡◌, Some, refl};
ghost use Rattle.kmip_enums.specs.QueryFunctions.{query_function_line, query_function_variants};
ghost use Rattle.kmip_enums.specs.QueryFunctions.{query_function_found};

use kmip_shape::Enumeration;
use std::fmt::{self, Display, Formatter, Write};

/// What a Query asks for: KMIP 1.0, 9.1.3.2.23 and 4.24.
#[derive(Clone, Copy, PartialEq, Eq, Drop)]
pub enum QueryFunction {
    /// The operations that the server supports.
    QueryOperations = 1,
    /// The types of managed objects that the server supports.
    QueryObjects = 2,
    /// The vendor's identification and information about the server.
    QueryServerInformation = 3,
}

impl Enumeration for QueryFunction {
    ghost line = { query_function_line };

    ghost variants = { query_function_variants };

    fn number(self) -> u32 {
        self as u32
    }

    fn from_number(number: u32) -> Option<QueryFunction> {
        match number {
            1 => Some(QueryFunction::QueryOperations),
            2 => Some(QueryFunction::QueryObjects),
            3 => Some(QueryFunction::QueryServerInformation),
            _ => None,
        }
    }

    fn name(self) -> &'static str {
        match self {
            QueryFunction::QueryOperations => "QueryOperations",
            QueryFunction::QueryObjects => "QueryObjects",
            QueryFunction::QueryServerInformation => "QueryServerInformation",
        }
    }

    ghost found = { query_function_found };

    ghost distinct = { refl };
}

impl Display for QueryFunction {
    ghost output = { λ x. Some (query_function_line x).name };

    fn fmt<W: Write>(&self, f: &mut Formatter<W>) -> fmt::Result {
        f.write_str(self.name())
    }
}

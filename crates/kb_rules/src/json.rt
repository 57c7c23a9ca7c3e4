//! A JSON value that contracts see as its data.
ghost use Rattle.std.specs.Prelude.{◌≡◌, IfOk};
ghost use Rattle.serde_json.specs.View.{view};

use kb_base::NoMemory;
use serde_json::Value;
use std::marker::Model;

/// A JSON value. A `Value` shows its capacities to contracts, so records that contracts compare
/// whole hold this type instead: it shows its data alone.
#[derive(Debug, Drop)]
pub struct Json {
    value: Value,
}

impl Model for Json {
    ghost use Rattle.serde_json.specs.Data.{Data};
    ghost use Rattle.serde_json.specs.View.{view as data_of};
    ghost use Rattle.kb_rules.specs.Json.{coded_data};

    ghost Value = { Data };

    ghost coded = { coded_data };

    ghost view = { λ j. data_of j.value };
}

impl Json {
    /// A copy of a value. `NoMemory` where memory for it was refused.
    pub fn copied(value: &Value) -> Result<Json, NoMemory>
        ensures { IfOk result (λ made. made ≡ view value.now) }
    {
        Ok(Json {
            value: value.clone()?,
        })
    }

    /// The value itself.
    pub fn from_value(value: Value) -> Json
        ensures { result ≡ view value }
    {
        Json { value }
    }

    /// The value, lent.
    pub fn as_value(&self) -> &Value
        ensures { view result.now ≡ self.now }
    {
        &self.value
    }
}

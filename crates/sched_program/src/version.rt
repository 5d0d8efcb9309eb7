//! The versions of texts of programs.
ghost use Rattle.std.specs.Prelude.{IfSome, IfNone};
ghost use Rattle.serde_json.specs.View.{view};
ghost use Rattle.sched_program.specs.Text.{HasVersion};
ghost use Rattle.sched_program.specs.declared.version.Version.{Version};

use serde_json::Value;

/// A version of texts. In the second, operations may wait their turn.
#[derive(Clone, Copy, Debug, PartialEq, Eq)]
pub enum Version {
    First,
    Second,
}

/// The version that a value says it is of.
pub fn version_of(value: &Value) -> Option<Version>
    ensures found { IfSome result (HasVersion (view value.now)) }
    ensures none { IfNone result ((version : Version) → ¬ HasVersion (view value.now) version) }
{
    match value.get("version")?.as_u64() {
        Some(1) => Some(Version::First),
        Some(2) => Some(Version::Second),
        _ => None,
    }
}

//! The parts of an extension that a check of its handlers needs.
ghost use Rattle.std.specs.Prelude.{◌≡◌};
ghost use Rattle.kb_handler_report.specs.Extension.{handlers_of};

use kb_base::{ExtensionId, Seq, Text};
use kb_code::Handler;
use kb_files::Identified;

/// The parts of an extension that a check of its handlers needs.
#[derive(Drop)]
pub struct ExtensionCode {
    /// The path of its directory, as the command line has it.
    pub dir: Text,
    /// Its identifier, as its manifest spells it.
    pub id: ExtensionId,
    /// The identifiers of the extensions that it depends on.
    pub dependencies: Seq<ExtensionId>,
    /// The handlers in its `handlers.json`, in the order of the file, or `None` if it has no such file.
    pub handlers: Option<Seq<Handler>>,
}

impl Identified for ExtensionCode {
    ghost use Rattle.kb_handler_report.specs.Extension.{names_of};

    ghost names = { names_of };

    fn id(&self) -> &str {
        self.id.as_str()
    }

    fn dependencies(&self) -> &[ExtensionId] {
        self.dependencies.as_slice()
    }
}

/// The handlers of an extension, or none if it has no file of handlers.
pub(crate) fn handlers_of(extension: &ExtensionCode) -> &[Handler]
    ensures { result.now ≡ handlers_of extension.now }
{
    match &extension.handlers {
        Some(handlers) => handlers.as_slice(),
        None => &[],
    }
}

//! Platforms, for which a keybinding rule can name its own key.
ghost use Rattle.std.specs.Prelude.{◌≡◌};
ghost use Rattle.kb_keys.specs.Platform.{platform_name, platform_named};

/// The operating system on which the editor runs. A rule of an extension can have a separate key for each
/// (VS Code's documentation of extensions: `mac`, `linux`, `win`).
#[derive(Clone, Copy, Debug, PartialEq, Eq, Hash)]
pub enum Platform {
    Mac,
    Linux,
    Windows,
}

impl Platform {
    /// The platform's name: `mac`, `linux` or `win`.
    pub fn name(self) -> &'static str
        ensures { result.now ≡ platform_name self }
    {
        match self {
            Platform::Mac => "mac",
            Platform::Linux => "linux",
            Platform::Windows => "win",
        }
    }

    /// The platform with this name, or `None`. Letter case is significant (our decision).
    pub fn named(name: &str) -> Option<Platform>
        ensures { result ≡ platform_named name.now }
    {
        match name {
            "mac" => Some(Platform::Mac),
            "linux" => Some(Platform::Linux),
            "win" => Some(Platform::Windows),
            _ => None,
        }
    }
}

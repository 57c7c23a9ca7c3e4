//! Theorems about the definitions, independent of any run.
ghost use Rattle.kb_code.specs.Blocks.{BlockIsInnermost};
ghost use Rattle.kb_code.specs.Coding.{ReadsTheSame};
ghost use Rattle.kb_code.specs.Face.{SameFaceDeclaresTheSame};
ghost use Rattle.kb_code.specs.Plain.{PlainHasNoBlocks, VersionOneIsPlain};
ghost use Rattle.kb_code.specs.Reachable.{EndAddsNone};
ghost use Rattle.kb_code.specs.Same.{SameIsEqual};

/// `same_declaration` decides equality of two declarations.
pub fn same_is_equal()
    ensures { SameIsEqual }
{}

/// Handlers with the same face have the same names, and each name declares the same in both.
pub fn same_face_declares_the_same()
    ensures { SameFaceDeclaresTheSame }
{}

/// In code with well-formed blocks, the block of a place is the innermost `Repeat` and `End` around it.
pub fn block_is_innermost()
    ensures { BlockIsInnermost }
{}

/// An `End` that goes back makes no other place reachable.
pub fn end_adds_none()
    ensures { EndAddsNone }
{}

/// Bytes that are code of version 1 are the same code in version 2.
pub fn reads_the_same()
    ensures { ReadsTheSame }
{}

/// The code of version 1 is the code without `Repeat` and `End`.
pub fn version_one_is_plain()
    ensures { VersionOneIsPlain }
{}

/// In code without `Repeat` and `End` no place has a block, so no jump leaves its block.
pub fn plain_has_no_blocks()
    ensures { PlainHasNoBlocks }
{}

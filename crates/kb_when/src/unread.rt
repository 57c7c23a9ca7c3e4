//! Patterns of clauses that `regex` rejects.
ghost use Rattle.std.specs.Prelude.{◌≡◌, [], map, OnOk, IfOk};
ghost use Rattle.kb_when.specs.Tree.{marked_of};
ghost use Rattle.kb_when.specs.Unread.{IsKept};

use crate::leaf::Leaf;
use crate::tree::Tree;
use kb_base::{NoMemory, Seq, UnreadPattern};
use kb_pattern::Pattern;
use std::alloc::Global;

/// The patterns visited so far: the mark of each, and the unread ones.
#[derive(Drop)]
pub(crate) struct Noted {
    pub(crate) marks: Seq<bool>,
    pub(crate) unread: Seq<UnreadPattern>,
}

impl Noted {
    ghost use Rattle.kb_when.specs.Leaf.{marked_of_leaf};
    ghost use Rattle.kb_when.specs.Marked.{patterns_in};
    ghost use Rattle.kb_when.specs.Unread.{note, note_all, HaveRightMarks};
    ghost use Rattle.kb_pattern.specs.Pattern.{HasRightMark};

    /// No patterns.
    fn new(alloc: Global) -> Noted
        ensures { result ≡ record { marks = []; unread = [] } }
    {
        Noted {
            marks: Seq::new(alloc),
            unread: Seq::new(alloc),
        }
    }

    /// Adds one more pattern. Error: `NoMemory`.
    fn note(&mut self, pattern: &Pattern) -> Result<(), NoMemory>
        ensures noted { OnOk result (self.new ≡ note self.old pattern.now) }
        ensures right { HasRightMark pattern.now }
    {
        let number = self.marks.len();
        let is_unread = pattern.is_unread();
        self.marks.push(is_unread)?;
        if is_unread {
            let pattern = pattern.text().copied()?;
            self.unread.push(UnreadPattern { number, pattern })?;
        }
        Ok(())
    }

    /// Adds the pattern of an atom, if it has one. Error: `NoMemory`.
    fn note_leaf(&mut self, leaf: &Leaf) -> Result<(), NoMemory>
        ensures noted { OnOk result (self.new ≡ note_all self.old (patterns_in (marked_of_leaf leaf.now))) }
        ensures right { OnOk result (HaveRightMarks (patterns_in (marked_of_leaf leaf.now))) }
    {
        match leaf {
            Leaf::Matches(_, pattern) => self.note(pattern),
            Leaf::Key(_) => Ok(()),
            Leaf::Equals(_, _) => Ok(()),
            Leaf::Compare(_, _, _) => Ok(()),
            Leaf::Member(_, _) => Ok(()),
        }
    }
}

impl Tree {
    ghost use Rattle.kb_when.specs.Marked.{patterns_in, all_patterns_in};
    ghost use Rattle.kb_when.specs.Tree.{marked_of, markeds_of};
    ghost use Rattle.kb_when.specs.Unread.{note_all, HaveRightMarks};

    /// Adds the patterns of several trees, in order. Error: `NoMemory`.
    #[cycle(noting)]
    fn note_trees(trees: &[Tree], noted: &mut Noted) -> Result<(), NoMemory>
        ensures noted { OnOk result (noted.new ≡
            note_all noted.old (all_patterns_in (markeds_of (map marked_of trees.now)))) }
        ensures right { OnOk result
            (HaveRightMarks (all_patterns_in (markeds_of (map marked_of trees.now)))) }
    {
        for tree in trees {
            tree.note_patterns(noted)?;
        }
        Ok(())
    }

    /// Adds the patterns of a tree, in the order of the text. Error: `NoMemory`.
    #[cycle(noting)]
    fn note_patterns(&self, noted: &mut Noted) -> Result<(), NoMemory>
        ensures noted { OnOk result (noted.new ≡
            note_all noted.old (patterns_in (marked_of self.now))) }
        ensures right { OnOk result (HaveRightMarks (patterns_in (marked_of self.now))) }
    {
        match self {
            Tree::Atom(leaf) => noted.note_leaf(leaf),
            Tree::Not(tree) => tree.note_patterns(noted),
            Tree::And(trees) => Tree::note_trees(trees, noted),
            Tree::Or(trees) => Tree::note_trees(trees, noted),
            Tree::True => Ok(()),
            Tree::False => Ok(()),
        }
    }
}

/// The patterns of a tree that `regex` rejects. Error: `NoMemory`.
pub(crate) fn unread_patterns(alloc: Global, tree: &Tree) -> Result<Seq<UnreadPattern>, NoMemory>
    ensures { IfOk result (IsKept (marked_of tree.now)) }
{
    let mut noted = Noted::new(alloc);
    tree.note_patterns(&mut noted)?;
    Ok(noted.unread)
}

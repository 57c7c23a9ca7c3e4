//! Texts cut at words.
ghost use Rattle.std.specs.Prelude.{◌≡◌, option_map};
ghost use Rattle.kb_guess.specs.Cutting as words;
ghost use Rattle.kb_guess.specs.Cutting.{both_sides};

/// What stands before and behind the first place of a mark in a text, if it has the mark.
#[tactic(auto, using(crate::proofs::CuttingLemmas::cut_once))]
pub(crate) fn around<'t>(text: &'t str, mark: &str) -> Option<(&'t str, &'t str)>
    ensures { option_map both_sides result ≡ words.around mark.now text.now }
{
    text.split_once(mark)
}

/// What stands before the first place of a mark in a text, if it has the mark.
pub(crate) fn before<'t>(text: &'t str, mark: &str) -> Option<&'t str>
    ensures { option_map (λ part. part.now) result ≡ words.before mark.now text.now }
{
    match around(text, mark) {
        Some((front, _)) => Some(front),
        None => None,
    }
}

/// What stands behind the first place of a mark in a text, if it has the mark.
pub(crate) fn behind<'t>(text: &'t str, mark: &str) -> Option<&'t str>
    ensures { option_map (λ part. part.now) result ≡ words.behind mark.now text.now }
{
    match around(text, mark) {
        Some((_, back)) => Some(back),
        None => None,
    }
}

/// A text without the mark that it ends with, if it does.
#[tactic(auto, using(crate::proofs::CuttingLemmas::cut_end))]
pub(crate) fn without_end<'t>(text: &'t str, mark: &str) -> Option<&'t str>
    ensures { option_map (λ part. part.now) result ≡ words.without_end mark.now text.now }
{
    text.strip_suffix(mark)
}

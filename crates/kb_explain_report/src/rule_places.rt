//! Where the key rules of all files stand.
ghost use Rattle.std.specs.Prelude.{◌≡◌, IfOk, IfSome, IsTrue, is_some, length, min};
ghost use Rattle.std.specs.Prelude.{option_and_then, option_map, true};
ghost use Rattle.serde_json.specs.Find.{as_object};
ghost use Rattle.serde_json.specs.View.{view};
ghost use Rattle.kb_places.specs.Place.{at_path};
ghost use Rattle.kb_places.specs.Position.{position_of};
ghost use Rattle.kb_explain_report.specs.RulePlaces.{ArePlaced, ArePlacedFrom, ArePlacedIn, ArePlacedInAll};
ghost use Rattle.kb_explain_report.specs.RulePlaces.{ArePlaces, IsRuleAt, position_in, positions_in};

use kb_base::{NoMemory, Origin};
use kb_places::{
    Position, Source, Span, Step, Walker, items, last_member, members, open, value_at,
};
use kb_source_files::{ExtensionSource, SourceFile, SourceFiles};
use serde_json::Value;
use std::alloc::Global;

/// What a list of rules is in.
#[derive(Clone, Copy, Debug, PartialEq, Eq)]
pub enum Home {
    /// A file of rules, which is the list.
    File,
    /// The manifest of an extension.
    Manifest,
}

/// Where the key rules of all files stand: of each file the positions of its elements, in their order. A
/// position is there only if what is read from there is the element.
#[derive(Drop)]
pub struct RulePlaces {
    defaults: Vec<Option<Position>>,
    extensions: Vec<Vec<Option<Position>>>,
    user: Vec<Option<Position>>,
}

/// Where the value of a member of the object at a part of a file is.
fn member_at(
    alloc: Global,
    source: &Source<'_>,
    object: Span,
    name: &str,
) -> Result<Option<Span>, NoMemory> {
    let text = source.plain().as_bytes();
    let members = members(alloc, text, object)?;
    match last_member(alloc, text, members.as_slice(), name)? {
        Some(member) => Ok(Some(member.value)),
        None => Ok(None),
    }
}

/// Where the key rules of a manifest are.
fn keybindings_at(alloc: Global, source: &Source<'_>) -> Result<Option<Span>, NoMemory> {
    match member_at(alloc, source, source.whole(), "contributes")? {
        Some(span) => member_at(alloc, source, span, "keybindings"),
        None => Ok(None),
    }
}

/// Where the list of rules is.
fn list_at(alloc: Global, source: &Source<'_>, home: Home) -> Result<Option<Span>, NoMemory> {
    match home {
        Home::File => Ok(Some(source.whole())),
        Home::Manifest => keybindings_at(alloc, source),
    }
}

/// The part of a file, if it is the rule at a place of its list.
#[tactic(auto, using(crate::proofs::RulePlacesLemmas::origins))]
fn rule_at(
    alloc: Global,
    source: &Source<'_>,
    home: Home,
    place: usize,
    span: Span,
) -> Result<Option<Span>, NoMemory>
    ensures { IfOk result (λ found. IfSome found (IsRuleAt source.now home place)) }
{
    match home {
        Home::File => {
            let path = [Step::Item(place)];
            source.place(alloc, path.as_slice(), span)
        }
        Home::Manifest => {
            let path = [
                Step::Member("contributes"),
                Step::Member("keybindings"),
                Step::Item(place),
            ];
            source.place(alloc, path.as_slice(), span)
        }
    }
}

/// Whether there is an object at a path.
fn is_object_at(value: &Value, path: &[Step<'_>]) -> bool
    ensures { IsTrue result → is_some (option_and_then as_object (at_path path.now (view value.now))) ≡ true }
{
    match value_at(value, path) {
        Some(found) => found.is_object(),
        None => false,
    }
}

/// The part of a file, if it is the one rule that stands in place of the list.
#[tactic(auto, using(crate::proofs::RulePlacesLemmas::lone_stands))]
fn lone_rule_at(
    alloc: Global,
    source: &Source<'_>,
    home: Home,
    span: Span,
) -> Result<Option<Span>, NoMemory>
    ensures { IfOk result (λ found. IfSome found (IsRuleAt source.now home 0)) }
{
    match home {
        Home::File => Ok(None),
        Home::Manifest => {
            let path = [Step::Member("contributes"), Step::Member("keybindings")];
            if is_object_at(source.value(), path.as_slice()) {
                source.place(alloc, path.as_slice(), span)
            } else {
                Ok(None)
            }
        }
    }
}

/// The position of the beginning of a part.
fn beginning(walker: &mut Walker<'_>, span: Option<Span>) -> Option<Position>
    ensures position { result ≡ option_map (λ s. position_of walker.old.text.now
        (min s.begin (length walker.old.text.now))) span }
    ensures text { walker.new.text.now ≡ walker.old.text.now }
{
    match span {
        Some(span) => Some(walker.position(span.begin)),
        None => None,
    }
}

/// The positions of the items of a list.
fn positions_of_items(
    alloc: Global,
    source: &Source<'_>,
    home: Home,
    spans: &[Span],
) -> Result<Vec<Option<Position>>, NoMemory>
    ensures { IfOk result (λ made. ArePlacedFrom source.now home 0 made.items) }
{
    let mut walker = Walker::new(source.bytes());
    let mut positions = Vec::new(alloc);
    for (place, span) in spans.iter().enumerate() {
        let rule = rule_at(alloc, source, home, place, *span)?;
        positions.push(beginning(&mut walker, rule))?;
    }
    Ok(positions)
}

/// The position of the one rule that stands in place of a list.
fn position_of_one(
    alloc: Global,
    source: &Source<'_>,
    home: Home,
    span: Span,
) -> Result<Vec<Option<Position>>, NoMemory>
    ensures { IfOk result (λ made. ArePlacedFrom source.now home 0 made.items) }
{
    let mut walker = Walker::new(source.bytes());
    let rule = lone_rule_at(alloc, source, home, span)?;
    let mut positions = Vec::new(alloc);
    positions.push(beginning(&mut walker, rule))?;
    Ok(positions)
}

/// The positions of the rules of a file that was read.
fn rule_positions(
    alloc: Global,
    source: &Source<'_>,
    home: Home,
) -> Result<Vec<Option<Position>>, NoMemory>
    ensures { IfOk result (λ made. ArePlacedFrom source.now home 0 made.items) }
{
    let Some(list) = list_at(alloc, source, home)? else {
        return Ok(Vec::new(alloc));
    };
    let text = source.plain().as_bytes();
    if text.get(list.begin) == Some(&b'{') {
        return position_of_one(alloc, source, home, list);
    }
    let spans = items(alloc, text, list)?;
    positions_of_items(alloc, source, home, spans.as_slice())
}

/// The positions of the rules of a file, none if it isn't read.
fn positions_of(alloc: Global, bytes: &[u8], home: Home) -> Result<Vec<Option<Position>>, NoMemory>
    ensures { IfOk result (λ made. ArePlaced bytes.now home made.items) }
{
    match open(alloc, bytes)? {
        Ok(source) => {
            let positions = rule_positions(alloc, &source, home);
            // Explicit, so the value is dropped by a call, and the proofs don't drop it field by field.
            drop(source);
            positions
        }
        Err(_) => Ok(Vec::new(alloc)),
    }
}

/// The positions of the rules of a file, none without a file.
fn positions_of_file(
    alloc: Global,
    file: Option<SourceFile<'_>>,
) -> Result<Vec<Option<Position>>, NoMemory>
    ensures { IfOk result (λ made. ArePlacedIn file.entry made.items) }
{
    match file {
        Some(file) => positions_of(alloc, file.bytes, Home::File),
        None => Ok(Vec::new(alloc)),
    }
}

/// The positions of the rules of the manifests of extensions.
fn positions_of_all(
    alloc: Global,
    sources: &[ExtensionSource<'_>],
) -> Result<Vec<Vec<Option<Position>>>, NoMemory>
    ensures { IfOk result (λ made. ArePlacedInAll sources.now made.items) }
{
    let mut all = Vec::new(alloc);
    for source in sources {
        let positions = positions_of(alloc, source.package.bytes, Home::Manifest)?;
        all.push(positions).map_err(NoMemory::from)?;
    }
    Ok(all)
}

impl RulePlaces {
    /// Where the key rules of these files stand. Error: `NoMemory`.
    pub fn of(alloc: Global, files: &SourceFiles<'_>) -> Result<RulePlaces, NoMemory>
        ensures { IfOk result (ArePlaces files.now) }
    {
        Ok(RulePlaces {
            defaults: positions_of_file(alloc, files.defaults)?,
            extensions: positions_of_all(alloc, files.extensions)?,
            user: positions_of_file(alloc, files.user)?,
        })
    }

    /// The positions of the elements of a file's list.
    fn in_file(&self, origin: Origin) -> &[Option<Position>]
        ensures { result.now ≡ positions_in self.now origin }
    {
        match origin {
            Origin::Defaults => self.defaults.as_slice(),
            Origin::Extension(number) => match self.extensions.get(number as usize) {
                Some(positions) => positions.as_slice(),
                None => &[],
            },
            Origin::User => self.user.as_slice(),
        }
    }

    /// Where the element of a file stands, by its place in its list, if that is known.
    pub fn position(&self, origin: Origin, place: usize) -> Option<Position>
        ensures { result ≡ position_in self.now origin place }
    {
        match self.in_file(origin).get(place) {
            Some(position) => *position,
            None => None,
        }
    }
}

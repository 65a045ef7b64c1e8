//! What is answered to a question: a listing, or the members of a chain.

ghost use Rattle.std.specs.Prelude.{◌≡◌, ◌++◌, [], IfOk, OnOk, IfSome};
ghost use Rattle.std.specs.Option.{option_map};
ghost use Rattle.lsn_core.specs.Causes.{HasCause};
ghost use Rattle.vault.specs.Frame.{OnlyReads};
ghost use Rattle.vault.specs.Site.{AllHome};
ghost use Rattle.vault.specs.Lending.{SiteReads, HasSiteCause};
ghost use Rattle.chain_view.specs.Asked.{asks};
ghost use Rattle.chain_view.specs.Answers.{names_text, members_line, names_answer, lines_answer, answer_text, IsAnswer, IsAnswerIn};

use crate::cells::Line;
use crate::json_text::{listing_json, members_json_line};
use crate::lines::lines_of;
use crate::table::listing_text;
use crate::words::Asked;
use chain_listing::{Listing, Word, listing_of, members_for};
use lsn_core::{AreaFault, NoMemory, Text};
use std::alloc::Global;
use vault::{Site, Vault};

/// Adds names, each with a blank before it.
fn add_names(text: &mut Vec<u8>, names: &[Word]) -> Result<(), NoMemory>
    ensures { OnOk result (text.new.items ≡ text.old.items ++ names_text names.now) }
{
    let mut left = names;
    while let Some((name, behind)) = left.split_first() {
        text.push(b' ')?;
        text.extend_from_slice(name.as_str().as_bytes())?;
        left = behind;
    }
    Ok(())
}

/// Names as a line, as the words of a command.
fn members_line(alloc: Global, names: &[Word]) -> Result<Text, NoMemory>
    ensures { IfOk result (λ text. text ≡ members_line names.now) }
{
    let mut text = Vec::new(alloc);
    if let Some((first, behind)) = names.split_first() {
        text.extend_from_slice(first.as_str().as_bytes())?;
        add_names(&mut text, behind)?;
    }
    text.push(b'\n')?;
    Ok(Text::from_vec(text))
}

/// The members of a chain, where there is one.
fn names_answer(
    alloc: Global,
    json: bool,
    names: Option<Vec<Word>>,
) -> Result<Option<Text>, NoMemory>
    ensures { IfOk result (λ text. text ≡ names_answer json (option_map (λ v. v.items) names)) }
{
    let Some(names) = names else {
        return Ok(None);
    };
    if json {
        return Ok(Some(members_json_line(alloc, &names)?));
    }
    Ok(Some(members_line(alloc, &names)?))
}

/// The lines of a listing.
fn lines_answer(alloc: Global, json: bool, lines: Vec<Line>) -> Result<Text, NoMemory>
    ensures { IfOk result (λ text. text ≡ lines_answer json lines.items) }
{
    if json {
        return listing_json(alloc, &lines);
    }
    listing_text(alloc, lines)
}

/// What is answered by what is listed. None exactly where the members of a chain are asked for, and
/// no chain ends at or before the place.
fn answer_text(
    alloc: Global,
    asked: &Asked<'_>,
    listing: &Listing,
) -> Result<Option<Text>, NoMemory>
    ensures { IfOk result (λ text. text ≡ answer_text (asks asked.now) listing.now) }
{
    match asked.upto {
        Some(upto) => {
            let names = members_for(alloc, &listing.backups, upto)?;
            names_answer(alloc, asked.json, names)
        }
        None => {
            let lines = lines_of(alloc, listing)?;
            Ok(Some(lines_answer(alloc, asked.json, lines)?))
        }
    }
}

/// What is answered by an area.
pub fn answer_of<V: Vault>(
    alloc: Global,
    asked: &Asked<'_>,
    area: &mut V,
) -> Result<Option<Text>, AreaFault>
    ensures answer { IfOk result (λ text. IfSome (V.files area.old) (λ m.
        IsAnswer (asks asked.now) m text)) }
    ensures reads { OnlyReads V.Vault area.old area.new }
    ensures cause { HasCause (V.faults area.old) (V.faults area.new) result }
{
    let listing = listing_of(alloc, area)?;
    Ok(answer_text(alloc, asked, &listing)?)
}

/// What is answered by the area of the folder that is asked for.
pub(crate) fn answer_in<S: Site>(
    alloc: Global,
    asked: &Asked<'_>,
    site: &mut S,
) -> Result<Option<Text>, AreaFault>
    requires { AllHome (S.areas site.old) }
    ensures answer { IfOk result (IsAnswerIn S.Site (asks asked.now) site.old) }
    ensures site { SiteReads (S.areas site.old) (S.areas site.new) }
    ensures home { AllHome (S.areas site.new) }
    ensures cause { HasSiteCause S.Site asked.now.folder.now site.old site.new result }
{
    let mut area = site.take(asked.folder)?;
    let answer = answer_of(alloc, asked, &mut area);
    site.give(asked.folder, area);
    answer
}

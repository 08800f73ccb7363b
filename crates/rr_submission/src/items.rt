//! The items of a text in turn, as the handling of a submission takes them.

ghost use Rattle.std.specs.Prelude.{◌≡◌, ◌∷◌, ◌++◌, ◌<◌, [], List, IfOk, OnOk};
ghost use Rattle.std.specs.Prelude.{OnErr, OnSome};
ghost use Rattle.rr_io.specs.Told.{Told};
ghost use Rattle.rr_text.specs.ParagraphReaders.{Entry, HasGiven, left_of};
ghost use Rattle.rr_submission.specs.ItemParts.{FindsNextItem};
ghost use Rattle.rr_submission.specs.Requests.{text_code};
ghost use Rattle.rr_submission.specs.SubmissionTexts.{secrets_of};

use crate::request::Request;
use crate::secret::secret_of;
use crate::submission_text::{is_password, is_secrets_alone};
use rr_auth::Secrets;
use rr_io::{ReadEnd, Reader};
use rr_number::Name;
use rr_object::Code;
use rr_text::{Attribute, Paragraph, Paragraphs, TextFault};
use std::alloc::{AllocError, Global};

/// What the next item of the text that this reader gives asks; `None` at the end of the text. The
/// error says how the reading broke off before that, and is never `Whole`. The secrets of the
/// paragraphs that it passes are added to `secrets`. Where memory runs out, the item is refused
/// with E90.
pub(crate) fn next_item<R: Reader>(
    alloc: Global,
    paragraphs: &mut Paragraphs,
    reader: &mut R,
    source: &Name,
    secrets: &mut Secrets,
) -> Result<Option<Request>, ReadEnd>
    ensures finds { (start : Told) (given : List Entry)
        → HasGiven start (R.told reader.old) paragraphs.old given
        → FindsNextItem source.now start
        (R.told reader.new) paragraphs.new given secrets.old secrets.new result }
    ensures nearer { IfOk result
        (λ found. OnSome found (left_of paragraphs.new < left_of paragraphs.old)) }
    ensures aside { (R.told reader.new).aside ≡ (R.told reader.old).aside }
{
    'paragraphs: loop {
        match paragraphs.next(alloc, reader) {
            Ok(None) => return Ok(None),
            Ok(Some(paragraph)) => {
                match add_secrets(alloc, &paragraph, secrets) {
                    Ok(()) => {}
                    Err(_) => return Ok(Some(Request::unread(Code::E90))),
                }
                if !is_secrets_alone(&paragraph) {
                    return Ok(Some(Request::read(alloc, paragraph, source)));
                }
            }
            Err(fault) => return Ok(Some(Request::unread(text_code(fault)?))),
        }
    }
}

/// The code of a paragraph that could not be read as text; a fault that is none of a paragraph ends
/// the reading.
fn text_code(fault: TextFault) -> Result<Code, ReadEnd>
    ensures { result ≡ text_code fault }
{
    match fault {
        TextFault::TooLarge => Ok(Code::E07),
        TextFault::BadByte | TextFault::FirstContinues | TextFault::NoColon | TextFault::BadName =>
            Ok(Code::E01),
        TextFault::Memory => Ok(Code::E90),
        TextFault::Read => Err(ReadEnd::Broken),
        TextFault::Endless => Err(ReadEnd::Endless),
    }
}

/// Adds the secrets of a paragraph; the error is that memory ran out, and then none is added.
fn add_secrets(
    alloc: Global,
    paragraph: &Paragraph,
    secrets: &mut Secrets,
) -> Result<(), AllocError>
    ensures ok { OnOk result (secrets.new ≡ secrets.old ++ secrets_of paragraph.now) }
    ensures err { OnErr result (secrets.new ≡ secrets.old) }
{
    let own = own_secrets(alloc, paragraph)?;
    secrets.add_all(own)
}

/// The secrets that a paragraph gives.
fn own_secrets(alloc: Global, paragraph: &Paragraph) -> Result<Secrets, AllocError>
    ensures { IfOk result (λ own. own ≡ secrets_of paragraph.now) }
{
    let mut own = Secrets::new(alloc);
    'attributes: for attribute in paragraph.attributes() {
        add_secret(alloc, &attribute, &mut own)?;
    }
    Ok(own)
}

/// Adds the secret of an attribute, if it gives one; the error is that memory ran out, and then
/// nothing is added.
fn add_secret(alloc: Global, attribute: &Attribute, secrets: &mut Secrets) -> Result<(), AllocError>
    ensures ok { OnOk result (secrets.new ≡ secrets.old ++ secrets_of (attribute.now ∷ [])) }
    ensures err { OnErr result (secrets.new ≡ secrets.old) }
{
    if !is_password(attribute) {
        return Ok(());
    }
    let secret = secret_of(alloc, attribute)?;
    secrets.add_owned(secret)
}

// A rights object in XML to the image of its fresh book: the reader of texts and the writer of images, one behind the other.
#![tactic(auto)]

ghost use Rattle.std.specs.Prelude.{◌≡◌, length, OnErr};
ghost use Rattle.xml_image.specs.declared.ImportError.{ImportError};
ghost use Rattle.xml_image.specs.Imported.{imported, import_buffer};
ghost use Rattle.xml_image.specs.Results.{import_error, as_imported};

use book::NoRoom;
use xml_model::TextError;

// What a buffer holds after a text was accepted: the image of the text's book, with its length, beside the number of elements.
#[derive(Clone, Copy, Debug, PartialEq, Eq)]
pub struct Imported {
    pub elements: u16,
    pub length: usize,
}

// Why there is no image: the text is refused, or the image does not fit the buffer.
#[derive(Clone, Copy, Debug, PartialEq, Eq)]
pub enum ImportError {
    Text(TextError),
    NoRoom(NoRoom),
}

impl From<TextError> for ImportError {
    ghost from_gives = { λ e x. x ≡ ImportError.Text e };

    fn from(e: TextError) -> ImportError {
        ImportError::Text(e)
    }
}

impl From<NoRoom> for ImportError {
    ghost from_gives = { λ e x. x ≡ ImportError.NoRoom e };

    fn from(e: NoRoom) -> ImportError {
        ImportError::NoRoom(e)
    }
}

// Rules out: 42 for an image that does not fit.
impl From<ImportError> for u8 {
    ghost from_gives = { λ e n. n ≡ import_error e };

    fn from(e: ImportError) -> u8 {
        match e {
            ImportError::Text(e) => u8::from(e),
            ImportError::NoRoom(e) => u8::from(e),
        }
    }
}

// The image of the text's book at the start of `image`. On Err no byte of the buffer is touched.
// Rules out: a refusal that writes, a byte touched behind the image.
pub fn import_text(text: &[u8], image: &mut [u8]) -> Result<Imported, ImportError>
    ensures value { as_imported result ≡ imported text.now (length image.old) }
    ensures image_after { image.new ≡ import_buffer text.now image.old }
    ensures kept { OnErr result (image.new ≡ image.old) }
{
    let r = xml_read::read(text)?;
    let length = image_write::write(&r.book, image)?;
    Ok(Imported {
        elements: r.elements,
        length,
    })
}

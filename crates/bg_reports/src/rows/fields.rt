//! The fields of a row, one after the other.
ghost use Rattle.std.specs.Prelude.{◌≡◌, ◌++◌, OnOk};
ghost use Rattle.json.specs.Print.{quoted};
ghost use Rattle.bg_reports.specs.RowFields.{file_field, field_start, number_field, text_field, unknown_fields};

use bg_text::{put_number, put_text};
use serde_json::Value;
use std::alloc::{AllocError, Global};

/// The form of a row. Its fields are appended in their order (docs/FORMATS.md, "Checking files").
#[derive(Clone, Copy, Debug, PartialEq, Eq)]
pub enum RowForm {
    /// Fields with tabs between them.
    Tsv,
    /// An object of JSON, in which a field is left out where nothing is known of it.
    Json,
}

impl RowForm {
    /// Appends the first field of a row: the name of the file.
    ///
    /// # Errors
    /// `AllocError` where memory runs out.
    pub fn put_file(self, alloc: Global, out: &mut Vec<u8>, name: &str) -> Result<(), AllocError>
        ensures { OnOk result (out.new.items ≡ out.old.items ++ file_field self name.now) }
    {
        match self {
            RowForm::Tsv => put_text(out, name),
            RowForm::Json => {
                put_text(out, "{\"file\":")?;
                put_quoted(alloc, out, name)
            }
        }
    }

    /// Appends a field with a text. In a row with tabs it stands as it is.
    ///
    /// # Errors
    /// `AllocError` where memory runs out.
    pub fn put_words(
        self,
        alloc: Global,
        out: &mut Vec<u8>,
        name: &str,
        text: &str,
    ) -> Result<(), AllocError>
        ensures { OnOk result (out.new.items ≡ out.old.items ++ text_field self name.now text.now) }
    {
        self.put_start(out, name)?;
        match self {
            RowForm::Tsv => put_text(out, text),
            RowForm::Json => put_quoted(alloc, out, text),
        }
    }

    /// Appends a field with a number.
    ///
    /// # Errors
    /// `AllocError` where memory runs out.
    pub fn put_count(self, out: &mut Vec<u8>, name: &str, number: u64) -> Result<(), AllocError>
        ensures { OnOk result (out.new.items ≡ out.old.items ++ number_field self name.now number) }
    {
        self.put_start(out, name)?;
        put_number(out, number)
    }

    /// Appends fields of which nothing is known: these tabs, one for each, in a row with tabs.
    ///
    /// # Errors
    /// `AllocError` where memory runs out.
    pub fn put_unknown(self, out: &mut Vec<u8>, tabs: &str) -> Result<(), AllocError>
        ensures { OnOk result (out.new.items ≡ out.old.items ++ unknown_fields self tabs.now) }
    {
        match self {
            RowForm::Tsv => put_text(out, tabs),
            RowForm::Json => Ok(()),
        }
    }

    /// Appends what stands before the content of a field with this name.
    fn put_start(self, out: &mut Vec<u8>, name: &str) -> Result<(), AllocError>
        ensures { OnOk result (out.new.items ≡ out.old.items ++ field_start self name.now) }
    {
        match self {
            RowForm::Tsv => put_text(out, "\t"),
            RowForm::Json => {
                put_text(out, ",\"")?;
                put_text(out, name)?;
                put_text(out, "\":")
            }
        }
    }
}

/// Appends a text as JSON writes it.
fn put_quoted(alloc: Global, out: &mut Vec<u8>, text: &str) -> Result<(), AllocError>
    ensures { OnOk result (out.new.items ≡ out.old.items ++ quoted text.now) }
{
    let value = Value::String(String::from_str(alloc, text)?);
    out.extend_from_slice(&value.to_vec(alloc)?)
}

//! Refused growths.
use crate::checks::check_last;
use crate::records::record_of;
use bg_match::{Record, Standing};
use bg_picture::{
    Numbering, PageWords, PictureLabels, labelled_picture_text, page_text, picture_text,
};
use std::alloc::{AllocError, Global};

/// Whether a text is made, and ends so.
fn ends_so(made: &Result<Vec<u8>, AllocError>, end: &[u8]) -> bool {
    match made {
        Ok(text) => text.ends_with(end),
        Err(_) => false,
    }
}

/// Whether the picture of a standing is drawn, also where memory is refused once.
fn is_drawn(alloc: Global, standing: &Standing) -> bool {
    let picture = match picture_text(alloc, standing, Numbering::Mover) {
        Err(_) => picture_text(alloc, standing, Numbering::Mover),
        picture => picture,
    };
    ends_so(&picture, b"X 0</text></g></svg>\n")
}

/// Where memory is refused the same call then succeeds. No run of the tests refuses any, but
/// `tools/checks/refuse_growths` refuses each growth in turn.
#[test]
fn refused_growths_of_pictures(rt: HostRuntime) {
    let standing = record_of(&rt, rt.alloc(), "length 3\nopen 3 1\n").standing();
    check_last(&rt, rt.alloc(), "picture", is_drawn(rt.alloc(), &standing));
}

const LABELS: PictureLabels<'static> = PictureLabels {
    x: "Anna",
    o: "<O>",
    occasion: "",
};

/// Whether the picture of a standing is drawn with words below it, also where memory is refused
/// once.
fn is_labelled(alloc: Global, standing: &Standing) -> bool {
    let picture = match labelled_picture_text(alloc, standing, Numbering::X, LABELS) {
        Err(_) => labelled_picture_text(alloc, standing, Numbering::X, LABELS),
        picture => picture,
    };
    let end =
        b"X 0</text></g><g class='left'><text x='0' y='580'>X: Anna</text><text x='0' y='606'>O: &lt;O&gt;</text></g></svg>\n";
    ends_so(&picture, end)
}

/// The same, of a picture with words below it.
#[test]
fn refused_growths_of_labelled_pictures(rt: HostRuntime) {
    let standing = record_of(&rt, rt.alloc(), "length 3\nopen 3 1\n").standing();
    check_last(
        &rt,
        rt.alloc(),
        "picture",
        is_labelled(rt.alloc(), &standing),
    );
}

const WORDS: PageWords<'static> = PageWords {
    title: "title",
    x: "Anna",
    o: "",
};

/// Whether the page of a match is made, also where memory is refused once.
fn is_page(alloc: Global, record: &Record) -> bool {
    let page = match page_text(alloc, record, WORDS, Numbering::Mover, 0) {
        Err(_) => page_text(alloc, record, WORDS, Numbering::Mover, 0),
        page => page,
    };
    ends_so(&page, b"</script>\n</body>\n</html>\n")
}

/// The same, of a page.
#[test]
fn refused_growths_of_pages(rt: HostRuntime) {
    let record = record_of(&rt, rt.alloc(), "length 3\nopen 3 1\nX move 8-5 6-5\n");
    check_last(&rt, rt.alloc(), "page", is_page(rt.alloc(), &record));
}

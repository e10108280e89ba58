//! The pages of matches.
use crate::checks::{check_told, text_of};
use crate::records::record_of;
use bg_picture::{Numbering, PageWords, page_text};
use std::alloc::Global;
use std::process::Abort;

/// The page of a transcript.
pub(super) fn page_of(
    rt: &impl Abort,
    alloc: Global,
    transcript: &str,
    words: PageWords<'_>,
    numbering: Numbering,
    seconds: u16,
) -> Vec<u8> {
    let record = record_of(rt, alloc, transcript);
    page_text(alloc, &record, words, numbering, seconds).expect(rt, "memory")
}

/// Where a part of a page ends that stands behind this place.
fn end_of(rt: &impl Abort, page: &str, place: usize, part: &str) -> usize {
    let rest = page.get(place..).expect(rt, part);
    let (_, behind) = rest.split_once(part).expect(rt, part);
    page.len().saturating_sub(behind.len())
}

/// A page has each of these parts, one behind the other, where "[..]" stands for what is between two
/// of them; what stands behind the last.
pub(super) fn behind_parts<'a>(rt: &impl Abort, page: &'a str, parts: &str) -> &'a str {
    let mut place = 0;
    for part in parts.split("[..]") {
        place = end_of(rt, page, place, part);
    }
    page.get(place..).expect(rt, parts)
}

/// A page has each of these parts, one behind the other, and no more behind the last.
pub(super) fn check_parts(rt: &impl Abort, page: &[u8], parts: &str) {
    let rest = behind_parts(rt, text_of(page), parts);
    check_told(rt, "behind the last part", rest, "");
}

/// Two games, of which the first ends by a drop.
const MATCH: &str =
    "length 3\nopen 3 1\nX move 8-5 6-5\nO double\nX drop\nopen 2 6\nO move 24-18 13-11\n";

const TWO_GAMES: &str = "\
    <!DOCTYPE html>\n<html lang='en'>\n<head>\n<meta charset='utf-8'>\n\
    [..]<title>Anna &amp; &lt;b&gt;Otto&lt;/b&gt; &quot;&#39;</title>\n<style>\n\
    [..]</style>\n<script>document.documentElement.className='js'</script>\n</head>\n\
    <body data-numbering='mover'>\n<svg class='shapes'\
    [..]</defs></svg>\n<h1><bdi>Anna &amp; &lt;b&gt;Otto&lt;/b&gt; &quot;&#39;</bdi></h1>\n\
    <p class='name'>X: <bdi>Anna &amp; &#39;A&#39;</bdi></p>\n\
    <p class='name'>O: <bdi>&lt;b&gt;Otto&lt;/b&gt;</bdi></p>\n<main>\n\
    [..]<div id='list'>\n<h2>game 1<span>; X 0, O 0</span></h2>\n<ol start='0' data-game='length 3, game 1'>\n\
    [..]<li id='start1' data-at='aaaaaafadaaaafaaaaaaaaaacaaaaaaafadaaaafaaaaaaaaaaca 1 - - 0 0' \
    data-next='opening'><a href='#start1'>start of game 1</a></li>\n\
    [..]<li id='p1' data-at='aaaaaafadaaaafaaaaaaaaaacaaaaaaafadaaaafaaaaaaaaaaca 1 - 31 0 0' \
    data-next='X to move 3 1'><a href='#p1'>open 3 1</a></li>\n\
    [..]<li id='p2' data-at='aaaaaceacaaaafaaaaaaaaaacaaaaaaafadaaaafaaaaaaaaaaca 1 - - 0 0' \
    data-next='O to roll'><a href='#p2'>X move 8-5 6-5</a></li>\n\
    [..]<li id='p3' data-at='aaaaaceacaaaafaaaaaaaaaacaaaaaaafadaaaafaaaaaaaaaaca 1 - - 0 0' \
    data-next='X to answer the double'><a href='#p3'>O double</a></li>\n\
    [..]<li id='p4' data-at='aaaaaceacaaaafaaaaaaaaaacaaaaaaafadaaaafaaaaaaaaaaca 1 - - 0 1' \
    data-next='O wins by a drop of the double'><a href='#p4'>X drop</a></li>\n\
    [..]<li id='result1' data-at='aaaaaceacaaaafaaaaaaaaaacaaaaaaafadaaaafaaaaaaaaaaca 1 - - 0 1' \
    data-next='O wins by a drop of the double'><a href='#result1'>result<span>: \
    O wins by a drop of the double, 1 point; X 0, O 1</span></a></li>\n</ol>\n\
    [..]<h2>game 2<span>; X 0, O 1</span></h2>\n<ol start='4' data-game='length 3, game 2'>\n\
    [..]<li id='start2' data-at='aaaaaafadaaaafaaaaaaaaaacaaaaaaafadaaaafaaaaaaaaaaca 1 - - 0 1' \
    data-next='opening'><a href='#start2'>start of game 2</a></li>\n\
    [..]<li id='p5' data-at='aaaaaafadaaaafaaaaaaaaaacaaaaaaafadaaaafaaaaaaaaaaca 1 - 26 0 1' \
    data-next='O to move 2 6'><a href='#p5'>open 2 6</a></li>\n\
    [..]<li id='p6' data-at='aaaaaafadaaaafaaaaaaaaaacaaaaaaafadaabaeaaaabaaaaaba 1 - - 0 1' \
    data-next='X to roll'><a href='#p6'>O move 24-18 13-11</a></li>\n\
    [..]</ol>\n</div>\n</main>\n<div id='end'>\n<svg viewBox='-8 0 616 560' role='img'><title>X to roll</title><desc>\
    [..]<text x='0' y='25'>length 3, game 2</text><text x='0' y='549'>X to roll</text>\
    [..]<text x='564' y='25'>O 1</text><text x='564' y='549'>X 0</text></g></svg>\n\
    [..]<p>length 3, game 2; X 0, O 1; cube 1 in the middle; X to roll</p>\n</div>\n\
    [..]<script>\n\
    [..]</script>\n</body>\n\
    [..]</html>\n";

/// The words of a page without names.
pub(super) fn titled(title: &str) -> PageWords<'_> {
    PageWords {
        title,
        x: "",
        o: "",
    }
}

#[test]
fn page_of_two_games(rt: HostRuntime) {
    let words = PageWords {
        title: "Anna & <b>Otto</b>\n\"'",
        x: "Anna & 'A'",
        o: "<b>Otto</b>",
    };
    let page = page_of(&rt, rt.alloc(), MATCH, words, Numbering::Mover, 0);
    check_parts(&rt, &page, TWO_GAMES);
}

const SHOWN_ANEW: &str = "\
    <noscript><meta http-equiv='refresh' content='5'></noscript>\n<title></title>\n\
    [..]<body data-numbering='X' data-seconds='5'>\n\
    [..]</defs></svg>\n<h1><bdi></bdi></h1>\n<main>\n\
    [..]<h2>game 1<span>, Crawford; X 0, O 0</span></h2>\n\
    <ol start='0' data-game='length 1 rules 2, game 1, Crawford'>\n<li id='start1' data-at='\
    [..]</li>\n</ol>\n</div>\n</main>\n<div id='end'>\n\
    [..]<p>length 1 rules 2, game 1, Crawford; X 0, O 0; cube 1 in the middle; opening</p>\n</div>\n";

#[test]
fn page_that_is_shown_anew(rt: HostRuntime) {
    let page = page_of(
        &rt,
        rt.alloc(),
        "length 1 rules 2\n",
        titled(""),
        Numbering::X,
        5,
    );
    let _ = behind_parts(&rt, text_of(&page), SHOWN_ANEW);
}

/// What no end of a game shows: an offered cube, one that is taken, and the dice behind an offer to
/// resign.
const OFFERED: &str =
    "length 7\nopen 3 1\nX move 8-5 6-5\nO double\nX take\nO roll 6 5\nO resign gammon\nX reject\n";

const OF_OFFERS: &str = " 1 - - 0 0' data-next='X to answer the double'><a href='#p3'>O double</a>\
    [..] 2 X - 0 0' data-next='O to roll'><a href='#p4'>X take</a>\
    [..] 2 X 65 0 0' data-next='O to move 6 5'><a href='#p5'>O roll 6 5</a>\
    [..] 2 X 65 0 0' data-next='O resigns gammon'><a href='#p6'>O resign gammon</a>\
    [..] 2 X 65 0 0' data-next='O to move 6 5'><a href='#p7'>X reject</a>";

#[test]
fn page_of_offers(rt: HostRuntime) {
    let page = page_of(&rt, rt.alloc(), OFFERED, titled(""), Numbering::Mover, 0);
    let _ = behind_parts(&rt, text_of(&page), OF_OFFERS);
}

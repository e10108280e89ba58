//! The pages. They are the same for all matches, since what differs comes over the socket.

/// A page.
#[derive(Clone, Copy, Debug, PartialEq, Eq)]
pub enum Page {
    /// The page of all matches, where new ones are made too.
    Home,
    /// The page of a match, for watchers and for players.
    Match,
    /// The same page, for a frame in a page of another site.
    Embedded,
}

impl Page {
    /// Returns the page as HTML.
    pub(crate) fn text(self) -> &'static str {
        match self {
            Page::Home => HOME_PAGE,
            Page::Match | Page::Embedded => MATCH_PAGE,
        }
    }
}

/// The page of all matches.
const HOME_PAGE: &str = r#"<!DOCTYPE html>
<html lang="en">
<head>
<meta charset="utf-8">
<meta name="viewport" content="width=device-width, initial-scale=1">
<title>Backgammon matches</title>
<link rel="icon" href="data:,">
<link rel="stylesheet" href="/style.css">
</head>
<body class="home">
<header><h1>Backgammon</h1></header>
<main>
<section>
<h2>A new match</h2>
<form id="new">
<label>Points <input id="length" type="number" min="1" max="99" value="3" required></label>
<label>Turns without a move <select id="rules"><option value="1">a click passes (first rules)</option><option value="2">pass at once (second rules)</option></select></label>
<label>Name of X <input id="x" maxlength="40" autocomplete="off"></label>
<label>Name of O <input id="o" maxlength="40" autocomplete="off"></label>
<button class="main" autocomplete="off">Make the match</button>
</form>
<div id="made" aria-live="polite"></div>
</section>
<section>
<h2>Live</h2>
<div id="live"></div>
</section>
<details id="idlers" hidden>
<summary>Idle: nobody has played for a long time</summary>
<div id="idle"></div>
</details>
<section>
<h2>Finished</h2>
<label class="search">Search <input id="search" type="search" autocomplete="off"></label>
<div id="finished"></div>
</section>
</main>
<noscript>This page needs its script, which this server sends; nothing is loaded from elsewhere.</noscript>
<script src="/script.js"></script>
</body>
</html>
"#;

/// The page of a match, as HTML.
const MATCH_PAGE: &str = r#"<!DOCTYPE html>
<html lang="en">
<head>
<meta charset="utf-8">
<meta name="viewport" content="width=device-width, initial-scale=1">
<meta name="referrer" content="no-referrer">
<title>Backgammon</title>
<link rel="icon" href="data:,">
<link rel="stylesheet" href="/style.css">
</head>
<body class="match">
<header><a href="/" class="up">Matches</a><h1 id="title">Backgammon</h1><span id="net" role="status">connecting</span></header>
<main>
<section class="play">
<div id="away" class="player"></div>
<div id="board"></div>
<div id="home" class="player"></div>
<p id="phase" role="status" aria-live="polite"></p>
<div id="acts"></div>
<p id="say" role="alert"></p>
<p id="words" class="words" aria-live="off"></p>
</section>
<aside>
<nav aria-label="Positions">
<button type="button" id="first" aria-label="To the start">|◀</button>
<button type="button" id="back" aria-label="Back">◀</button>
<button type="button" id="forth" aria-label="Forth">▶</button>
<button type="button" id="now">Now</button>
<span id="watching"></span>
</nav>
<ol id="moves"></ol>
<p id="links"></p>
<div id="dice"></div>
</aside>
</main>
<dialog id="ask"></dialog>
<noscript>This page needs its script, which this server sends; nothing is loaded from elsewhere.</noscript>
<script src="/script.js"></script>
</body>
</html>
"#;

//! Weights of hits that were worked out by hand.
ghost use Rattle.std.specs.Prelude.{IsTrue, IsFalse, All, AllPairs};
ghost use Rattle.rankers.specs.Weight.{AreRanked, Differ, IsRanked};

use crate::ranked::RANKED;
use crate::tables::{Trial, try_tables};
use doc_types::{Hit, Hits, MAX_POSITION};
use rankers::{Ranker, Weights, weight};
use srch_base::Items;
use std::alloc::Global;
use std::test::Fail;

/// The rankers, in the order in which a case has their weights.
const RANKERS: [Ranker; 5] = [
    Ranker::None,
    Ranker::WordCount,
    Ranker::Proximity,
    Ranker::MatchAny,
    Ranker::FieldMask,
];

/// Hits, each as its query position, word, field and position; the number of keywords; the weights of the fields; and what `none`,
/// `wordcount`, `proximity`, `matchany` and `fieldmask` give. In turn: words in two fields, by two pairs of weights; no keyword; no
/// hit; one hit; a word between two; a word twice; offsets below 0; offsets 256 apart; one word at two query positions, twice; hits
/// in no order; fields without a hit; the end of what is short; a far position and a far word; the greatest numbers.
const CASES: &str = "\
1/0@0.1 3/2@0.3 2/1@1.1; 3; 1 1 ⇒ 1 3 3 9 3
1/0@0.1 3/2@0.3 2/1@1.1; 3; 10 1 ⇒ 1 21 21 351 3
; 0; 1 1 ⇒ 1 1 1 1 1
; 3; 1 1 ⇒ 1 0 0 0 0
1/0@0.1; 1; 1 ⇒ 1 1 1 1 1
1/0@0.1 2/1@0.3; 2; 1 ⇒ 1 2 1 2 1
1/0@0.1 2/1@0.2 1/0@0.5; 2; 1 ⇒ 1 3 2 4 1
3/0@0.1 4/1@0.2; 4; 1 ⇒ 1 2 2 6 1
1/0@0.1 2/1@0.258; 2; 1 ⇒ 1 2 1 2 1
1/0@0.1 2/0@0.1; 2; 1 ⇒ 1 2 1 1 1
1/0@0.1 1/0@0.2 2/0@0.1 2/0@0.2; 2; 1 ⇒ 1 4 2 3 1
2/1@0.9 1/0@2.5 3/2@0.4 2/1@2.6 1/0@0.8 3/2@2.7; 3; 3 1 2 ⇒ 1 15 12 141 5
1/0@2.4; 2; 1 2 5 1 ⇒ 1 5 5 5 4
1/0@0.768 2/1@0.769; 2; 7 ⇒ 1 14 14 112 1
1/0@0.1 2/1@0.65535 3/300@0.65535; 3; 1 ⇒ 1 3 1 3 1
254/0@0.65534 255/255@0.65535 1/256@0.0; 255; 2 ⇒ 1 6 4 1026 1
";

/// The greatest weights: hits of a query of 255 keywords in 32 fields, in the first field one of each keyword, all at one offset, and
/// in each other field one. They come to 286 and 255 + 31 times 65,535, and to 65,535 * (255 + 254 * 255 * 32 * 65,535 + 31).
const GREATEST: &str = "\
1/0@0.65281 2/1@0.65282 3/2@0.65283 4/3@0.65284 5/4@0.65285 6/5@0.65286 7/6@0.65287 8/7@0.65288 9/8@0.65289 \
10/9@0.65290 11/10@0.65291 12/11@0.65292 13/12@0.65293 14/13@0.65294 15/14@0.65295 16/15@0.65296 17/16@0.65297 \
18/17@0.65298 19/18@0.65299 20/19@0.65300 21/20@0.65301 22/21@0.65302 23/22@0.65303 24/23@0.65304 25/24@0.65305 \
26/25@0.65306 27/26@0.65307 28/27@0.65308 29/28@0.65309 30/29@0.65310 31/30@0.65311 32/31@0.65312 33/32@0.65313 \
34/33@0.65314 35/34@0.65315 36/35@0.65316 37/36@0.65317 38/37@0.65318 39/38@0.65319 40/39@0.65320 41/40@0.65321 \
42/41@0.65322 43/42@0.65323 44/43@0.65324 45/44@0.65325 46/45@0.65326 47/46@0.65327 48/47@0.65328 49/48@0.65329 \
50/49@0.65330 51/50@0.65331 52/51@0.65332 53/52@0.65333 54/53@0.65334 55/54@0.65335 56/55@0.65336 57/56@0.65337 \
58/57@0.65338 59/58@0.65339 60/59@0.65340 61/60@0.65341 62/61@0.65342 63/62@0.65343 64/63@0.65344 65/64@0.65345 \
66/65@0.65346 67/66@0.65347 68/67@0.65348 69/68@0.65349 70/69@0.65350 71/70@0.65351 72/71@0.65352 73/72@0.65353 \
74/73@0.65354 75/74@0.65355 76/75@0.65356 77/76@0.65357 78/77@0.65358 79/78@0.65359 80/79@0.65360 81/80@0.65361 \
82/81@0.65362 83/82@0.65363 84/83@0.65364 85/84@0.65365 86/85@0.65366 87/86@0.65367 88/87@0.65368 89/88@0.65369 \
90/89@0.65370 91/90@0.65371 92/91@0.65372 93/92@0.65373 94/93@0.65374 95/94@0.65375 96/95@0.65376 97/96@0.65377 \
98/97@0.65378 99/98@0.65379 100/99@0.65380 101/100@0.65381 102/101@0.65382 103/102@0.65383 104/103@0.65384 \
105/104@0.65385 106/105@0.65386 107/106@0.65387 108/107@0.65388 109/108@0.65389 110/109@0.65390 111/110@0.65391 \
112/111@0.65392 113/112@0.65393 114/113@0.65394 115/114@0.65395 116/115@0.65396 117/116@0.65397 118/117@0.65398 \
119/118@0.65399 120/119@0.65400 121/120@0.65401 122/121@0.65402 123/122@0.65403 124/123@0.65404 125/124@0.65405 \
126/125@0.65406 127/126@0.65407 128/127@0.65408 129/128@0.65409 130/129@0.65410 131/130@0.65411 132/131@0.65412 \
133/132@0.65413 134/133@0.65414 135/134@0.65415 136/135@0.65416 137/136@0.65417 138/137@0.65418 139/138@0.65419 \
140/139@0.65420 141/140@0.65421 142/141@0.65422 143/142@0.65423 144/143@0.65424 145/144@0.65425 146/145@0.65426 \
147/146@0.65427 148/147@0.65428 149/148@0.65429 150/149@0.65430 151/150@0.65431 152/151@0.65432 153/152@0.65433 \
154/153@0.65434 155/154@0.65435 156/155@0.65436 157/156@0.65437 158/157@0.65438 159/158@0.65439 160/159@0.65440 \
161/160@0.65441 162/161@0.65442 163/162@0.65443 164/163@0.65444 165/164@0.65445 166/165@0.65446 167/166@0.65447 \
168/167@0.65448 169/168@0.65449 170/169@0.65450 171/170@0.65451 172/171@0.65452 173/172@0.65453 174/173@0.65454 \
175/174@0.65455 176/175@0.65456 177/176@0.65457 178/177@0.65458 179/178@0.65459 180/179@0.65460 181/180@0.65461 \
182/181@0.65462 183/182@0.65463 184/183@0.65464 185/184@0.65465 186/185@0.65466 187/186@0.65467 188/187@0.65468 \
189/188@0.65469 190/189@0.65470 191/190@0.65471 192/191@0.65472 193/192@0.65473 194/193@0.65474 195/194@0.65475 \
196/195@0.65476 197/196@0.65477 198/197@0.65478 199/198@0.65479 200/199@0.65480 201/200@0.65481 202/201@0.65482 \
203/202@0.65483 204/203@0.65484 205/204@0.65485 206/205@0.65486 207/206@0.65487 208/207@0.65488 209/208@0.65489 \
210/209@0.65490 211/210@0.65491 212/211@0.65492 213/212@0.65493 214/213@0.65494 215/214@0.65495 216/215@0.65496 \
217/216@0.65497 218/217@0.65498 219/218@0.65499 220/219@0.65500 221/220@0.65501 222/221@0.65502 223/222@0.65503 \
224/223@0.65504 225/224@0.65505 226/225@0.65506 227/226@0.65507 228/227@0.65508 229/228@0.65509 230/229@0.65510 \
231/230@0.65511 232/231@0.65512 233/232@0.65513 234/233@0.65514 235/234@0.65515 236/235@0.65516 237/236@0.65517 \
238/237@0.65518 239/238@0.65519 240/239@0.65520 241/240@0.65521 242/241@0.65522 243/242@0.65523 244/243@0.65524 \
245/244@0.65525 246/245@0.65526 247/246@0.65527 248/247@0.65528 249/248@0.65529 250/249@0.65530 251/250@0.65531 \
252/251@0.65532 253/252@0.65533 254/253@0.65534 255/254@0.65535 1/0@1.65535 1/0@2.65535 1/0@3.65535 1/0@4.65535 \
1/0@5.65535 1/0@6.65535 1/0@7.65535 1/0@8.65535 1/0@9.65535 1/0@10.65535 1/0@11.65535 1/0@12.65535 1/0@13.65535 \
1/0@14.65535 1/0@15.65535 1/0@16.65535 1/0@17.65535 1/0@18.65535 1/0@19.65535 1/0@20.65535 1/0@21.65535 1/0@22.65535 \
1/0@23.65535 1/0@24.65535 1/0@25.65535 1/0@26.65535 1/0@27.65535 1/0@28.65535 1/0@29.65535 1/0@30.65535 1/0@31.65535; \
255; 65535 65535 65535 65535 65535 65535 65535 65535 65535 65535 65535 65535 65535 65535 65535 65535 \
65535 65535 65535 65535 65535 65535 65535 65535 65535 65535 65535 65535 65535 65535 65535 65535 ⇒ \
1 18743010 18743010 8901649372127010 4294967295
";

/// Whether no two hits are of one query position at one place.
fn are_apart(hits: &[Hit]) -> bool
    ensures { IsTrue result → AllPairs Differ hits.now }
{
    for (place, hit) in hits.iter().enumerate() {
        if has_place(&hits[..place], hit) {
            return false;
        }
    }
    true
}

/// Whether a hit is of the same query position at the same place.
fn has_place(hits: &[Hit], hit: &Hit) -> bool
    ensures { IsFalse result → All (λ other. Differ other hit.now) hits.now }
{
    hits.iter().any(|other| {
        other.field == hit.field && other.position == hit.position && other.query == hit.query
    })
}

/// Whether the hits can be ranked by these weights.
pub(crate) fn are_ranked(hits: &Hits, weights: &Weights) -> bool
    ensures { IsTrue result → AreRanked hits.now weights.now.list }
{
    let list = hits.list.as_slice();
    let weights = weights.list.as_slice();
    if hits.keywords > 255 || weights.len() > 32 {
        return false;
    }
    if !weights
        .iter()
        .all(|weight| 1 <= *weight && *weight <= 65_535)
    {
        return false;
    }
    if !are_within(list, hits.keywords, weights.len()) {
        return false;
    }
    are_apart(list)
}

/// Whether the hits are of a query with so many keywords, in so many fields.
fn are_within(hits: &[Hit], keywords: u16, fields: usize) -> bool
    ensures { IsTrue result → All (IsRanked keywords fields) hits.now }
{
    hits.iter().all(|hit| {
        1 <= hit.query
            && hit.query <= keywords
            && usize::from(hit.field) < fields
            && hit.position <= MAX_POSITION
    })
}

/// Appends the weights that the rankers give, where the hits can be ranked.
fn put_weights(hits: &Hits, weights: &Weights, into: &mut String) -> Option<()> {
    if !are_ranked(hits, weights) {
        return None;
    }
    for ranker in RANKERS {
        let weight = weight(ranker, hits, weights);
        write!(into, " {weight}").ok()?;
    }
    Some(())
}

/// Two numbers with a sign between them.
fn two(text: &str, between: &str) -> Option<(u16, u16)> {
    let (first, second) = text.split_once(between)?;
    Some((first.parse::<u16>().ok()?, second.parse::<u16>().ok()?))
}

/// A hit, as a case tells it.
fn hit(text: &str) -> Option<Hit> {
    let (words, place) = text.split_once("@")?;
    let (query, word) = two(words, "/")?;
    let (field, position) = two(place, ".")?;
    Some(Hit {
        query,
        word,
        field,
        position: u32::from(position),
    })
}

/// The hits of a case.
pub(crate) fn hits_in(alloc: Global, text: &str) -> Option<Items<Hit>> {
    let mut list = Vec::new(alloc);
    for word in text.split_whitespace() {
        list.push(hit(word)?).ok()?;
    }
    Some(Items::new(list))
}

/// The weights of the fields of a case.
pub(crate) fn weights_in(alloc: Global, text: &str) -> Option<Weights> {
    let mut list = Vec::new(alloc);
    for word in text.split_whitespace() {
        list.push(word.parse::<u32>().ok()?).ok()?;
    }
    Some(Weights {
        list: Items::new(list),
    })
}

/// Appends what a case comes to.
pub(crate) fn put_case(alloc: Global, text: &str, into: &mut String) -> Option<()> {
    let (hits, rest) = text.split_once("; ")?;
    let (keywords, weights) = rest.split_once("; ")?;
    let keywords = keywords.parse::<u16>().ok()?;
    let list = hits_in(alloc, hits)?;
    let weights = weights_in(alloc, weights)?;
    put_weights(&Hits { keywords, list }, &weights, into)
}

#[test]
fn weights_are_those_worked_out_by_hand(rt: HostRuntime) -> Result<(), Fail> {
    try_tables(
        rt.alloc(),
        &[
            (CASES, Trial::Weights),
            (GREATEST, Trial::Weights),
            (RANKED, Trial::Ranked),
        ],
    )
}

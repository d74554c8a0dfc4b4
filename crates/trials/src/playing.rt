//! Playing a schedule: a floor of its own, with tables of its own, and what its calls told.
use crate::drawer::Drawer;
use crate::drawn::Drawn;
use crate::history::History;
use crate::host_floor::HostFloor;
use crate::mood::Sort;
use crate::on_purpose::refused_on_purpose;
use crate::parsing::Seen;
use crate::random::Random;
use crate::setting::{AnyChooser, AnyContent, AnyRule, Setting};
use crate::tally::Tally;
use calls::{Answer, Call};
use chooser::Chooser;
use curve::Curve;
use desk::MOST_OPERATIONS;
use ledger::Ledger;
use quorum::{Majority, QuorumRule};
use quote::Quote;
use std::alloc::{AllocError, Global};
use synod::Synod;

/// Plays the schedule of a seed.
pub(crate) fn play(alloc: Global, seed: u64, tally: &mut Tally) -> Result<History, AllocError> {
    let mut random = Random::new(seed);
    let setting = Setting::drawn(&mut random);
    let table = Table {
        alloc,
        setting,
        random,
        tally,
    };
    match setting.content {
        AnyContent::Quote => table.by_rule::<Quote>(),
        AnyContent::Curve => table.by_rule::<Curve>(),
    }
}

// What a schedule is played with.
#[derive(Drop)]
struct Table<'a> {
    alloc: Global,
    setting: Setting,
    random: Random,
    tally: &'a mut Tally,
}

impl Table<'_> {
    fn by_rule<C: Drawn>(self) -> Result<History, AllocError> {
        match self.setting.rule {
            AnyRule::Majority => self.by_chooser::<C, Majority>(Majority),
            AnyRule::Weighted(rule) => self.by_chooser::<C, _>(rule),
        }
    }

    fn by_chooser<C: Drawn, Q: QuorumRule + Drop>(self, rule: Q) -> Result<History, AllocError> {
        match self.setting.chooser {
            AnyChooser::Ledger => self.with::<C, Q, Ledger>(rule, Ledger::new()),
            AnyChooser::Synod(AnyRule::Majority) => self.with::<C, Q, _>(
                rule,
                Synod::new(&Majority),
            ),
            AnyChooser::Synod(AnyRule::Weighted(five)) => self.with::<C, Q, _>(
                rule,
                Synod::new(&five),
            ),
        }
    }

    // Plays with these parts.
    fn with<C: Drawn, Q: QuorumRule + Drop, S: Chooser + Drop>(
        self,
        rule: Q,
        mut chooser: S,
    ) -> Result<History, AllocError> {
        let Table {
            alloc,
            setting,
            random,
            tally,
        } = self;
        if let Some(offer) = setting.earlier_offer {
            let _ = chooser.offer(offer.number, offer.value);
        }
        let mut host = HostFloor::<C, Q, S>::new(alloc, rule, chooser, setting.lengths)?;
        let mut drawer = Drawer::new(random, &setting);
        let mut history = History::new(alloc);
        for _ in 0..setting.calls {
            if drawer.is_done() {
                break;
            }
            let sort = drawer.sort();
            if sort == Sort::OnPurpose {
                let answer = refused_on_purpose(&mut host, &mut drawer);
                tally.count_aside(&answer);
            } else {
                play_turn(&mut host, &mut drawer, &mut history, tally, sort)?;
            }
        }
        look_at_all(&mut host, &mut history)?;
        Ok(history)
    }
}

// Makes one call, and notes what it told.
fn play_turn<C: Drawn, Q: QuorumRule + Drop, S: Chooser + Drop>(
    host: &mut HostFloor<C, Q, S>,
    drawer: &mut Drawer,
    history: &mut History,
    tally: &mut Tally,
    sort: Sort,
) -> Result<(), AllocError> {
    let call = drawer.call::<C>(sort, &host.tables, &host.floor.desk());
    let seen = Seen::before(&call, host.tables.frames.as_slice());
    let answer = host.make(&call);
    history.note(&call, seen, &answer, host.tables.nodes.as_slice())?;
    tally.count_call(&call, &answer);
    if sort == Sort::Regroup {
        tally.count_regroups(host.regroups_under_way());
    }
    drawer.note(&call, &answer);
    Ok(())
}

// Looks at each operation at the end, up to the first that was not started.
fn look_at_all<C: Drawn, Q: QuorumRule + Drop, S: Chooser + Drop>(
    host: &mut HostFloor<C, Q, S>,
    history: &mut History,
) -> Result<(), AllocError> {
    for place in 0..MOST_OPERATIONS {
        let operation = u16::try_from(place).unwrap_or(u16::MAX);
        match host.make(&Call::Look { operation }) {
            Ok(Answer::Row(row)) => history.end.push(row)?,
            _ => break,
        }
    }
    Ok(())
}

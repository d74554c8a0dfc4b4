//! The worked examples of docs/, proved as one list, `AllExamples`, and run; each page's examples are a part of it (contents and quorum rules; frames; choosers and ballots; the host's tables; nodes; calls).
#![tactic(auto)]

ghost use Rattle.std.specs.Prelude.{◌≡◌, true};
ghost use Rattle.cases.specs.Examples.{WorkedExamples};
ghost use Rattle.cases.specs.FrameExamples.{FrameExamples};

mod all;
mod calls;
mod choosers;
mod host_tables;
mod nodes;

pub use all::worked_examples;
pub use calls::call_examples_stand;
pub use choosers::{contested_ballot, first_offer_decided};
use content::Content;
use frame::SLOT;
pub use host_tables::table_examples_stand;
pub use nodes::node_examples_stand;
use quorum::{Majority, QuorumRule, Weighted};
use quote::Quote;
use reader::check;

/// Every worked example comes out as it is written down; the rules among them are asked, too.
pub fn examples_stand() -> bool
    ensures listed { WorkedExamples }
    ensures asked { result ≡ true }
{
    let Ok(weighted) = Weighted::new([3, 1, 1, 0, 0, 0, 0]) else {
        return false;
    };
    let majority = !Majority.wins(4, 0b0011) & Majority.wins(4, 0b0111);
    let weights = weighted.wins(3, 0b001) & !weighted.wins(3, 0b110);
    majority & weights
}

/// Every worked example of frames comes out as it is written down; a slot of kind 8 is checked, too.
pub fn frame_examples_stand() -> bool
    ensures listed { FrameExamples }
    ensures asked { result ≡ true }
{
    check::<Quote>(&[8; SLOT]).is_err()
}

#[cfg(test)]
mod tests {
    use content::{Content, read_back};
    use curve::Curve;
    use frame::{Cause, FrameFault, Head, Message, Tag};
    use quorum::{Majority, QuorumRule, Weighted};
    use quote::Quote;
    use reader::{check as check_frame, read};
    use refusal::Refusal;
    use std::test::Fail;
    use writer::place;

    // The number of the refusal, if it is one.
    fn refused<T: Drop>(made: Result<T, Refusal>) -> Option<u8> {
        made.err().map(Refusal::number)
    }

    #[test]
    fn majority_of_four(rt: HostRuntime) {
        for set in 0..16u8 {
            assert_eq!(rt; Majority.wins(4, set), set.count_ones() >= 3);
        }
        assert!(rt; !Majority.wins(4, 16 + 7));
        assert!(rt; !Majority.wins(0, 0));
        assert!(rt; !Majority.wins(8, 255));
    }

    #[test]
    fn first_of_three_outweighs(rt: HostRuntime) -> Result<(), Fail> {
        let rule = Weighted::new([3, 1, 1, 0, 0, 0, 0])?;
        assert!(rt; rule.wins(3, 1));
        assert!(rt; !rule.wins(3, 6));
        assert!(rt; !rule.wins(3, 8 + 1));
        assert_eq!(rt; refused(Weighted::new([0, 1, 1, 0, 0, 0, 0])), Some(13));
        assert_eq!(rt; refused(Weighted::new([3, 1, 101, 0, 0, 0, 0])), Some(13));
        Ok(())
    }

    #[test]
    fn quote_and_its_bytes(rt: HostRuntime) -> Result<(), Fail> {
        let quote = Quote::new(500, 510)?;
        assert_eq!(rt;
            quote.to_bytes(),
            [0, 0, 0x01, 0xF4, 0, 0, 0x01, 0xFE, 0, 0, 0, 0, 0, 0, 0, 0]
        );
        assert_eq!(rt; read_back(&quote), Some(quote));
        assert_ne!(rt; quote, Quote::new(500, 511)?);
        assert_ne!(rt; quote, Quote::new(499, 510)?);
        assert_eq!(rt; refused(Quote::new(510, 500)), Some(13));
        assert_eq!(rt;
            Quote::from_bytes(&[0, 0, 0x01, 0xFE, 0, 0, 0x01, 0xF4]),
            None
        );
        Ok(())
    }

    #[test]
    fn curve_and_its_bytes(rt: HostRuntime) {
        let curve = Curve::new(-25, 10, 130, 275);
        assert_eq!(rt;
            curve.to_bytes(),
            [
                0xFF, 0xFF, 0xFF, 0xE7, 0, 0, 0, 0x0A, 0, 0, 0, 0x82, 0, 0, 0x01, 0x13,
            ]
        );
        assert_eq!(rt; read_back(&curve), Some(curve));
        assert_ne!(rt; curve, Curve::new(-25, 10, 130, 276));
        assert_eq!(rt; Curve::from_bytes(&[0; 15]), None);
    }

    // From machine 1 to machine 2.
    fn from_1_to_2(number: u8) -> Head {
        Head {
            receiver: 2,
            sender: 1,
            number,
        }
    }

    fn fault(cause: Cause, offset: usize) -> FrameFault {
        FrameFault { cause, offset }
    }

    #[test]
    fn get_in_its_slot_alone(rt: HostRuntime) -> Result<(), Fail> {
        let mut frames = [0xFFu8; 96];
        let get = Message::Get {
            head: from_1_to_2(0),
            operation: 1,
        };
        place::<Quote>(&mut frames, 1, get)?;
        assert_eq!(rt; frames[31], 0xFF);
        assert!(rt; frames[32..38] == [1, 2, 1, 0, 0, 1]);
        assert!(rt; frames[38..64] == [0; 26]);
        assert_eq!(rt; frames[64], 0xFF);
        assert!(rt; check_frame::<Quote>(&frames[32..64]) == Ok((1, 6)));
        assert_eq!(rt; refused(place::<Quote>(&mut frames, 3, get)), Some(3));
        Ok(())
    }

    #[test]
    fn put_at_width_8(rt: HostRuntime) -> Result<(), Fail> {
        let bytes = Quote::new(500, 510)?.to_bytes();
        let mut frames = [0u8; 64];
        let tag = Tag {
            version: 9999,
            node: 16,
        };
        let put = Message::Put {
            head: from_1_to_2(0),
            operation: 4095,
            tag,
            content: &bytes[0..8],
        };
        place::<Quote>(&mut frames, 1, put)?;
        assert!(rt; check_frame::<Quote>(&frames[32..64]) == Ok((3, 17)));
        assert_eq!(rt;
            read::<Quote>(&frames[32..64]),
            Ok(Message::Put {
                head: from_1_to_2(0),
                operation: 4095,
                tag,
                content: &[0, 0, 0x01, 0xF4, 0, 0, 0x01, 0xFE],
            },)
        );
        Ok(())
    }

    #[test]
    fn update_at_width_16(rt: HostRuntime) -> Result<(), Fail> {
        let bytes = Curve::new(-25, 10, 130, 275).to_bytes();
        let mut frames = [0u8; 32];
        let tag = Tag {
            version: 0,
            node: 0,
        };
        let members = [2, 3, 4, 0, 0, 0, 0];
        let update = Message::Update {
            head: from_1_to_2(1),
            count: 3,
            members: &members,
            tag,
            content: &bytes,
        };
        place::<Curve>(&mut frames, 0, update)?;
        assert!(rt; check_frame::<Curve>(&frames) == Ok((7, 31)));
        assert_eq!(rt;
            read::<Curve>(&frames),
            Ok(Message::Update {
                head: from_1_to_2(1),
                count: 3,
                members: &[2, 3, 4, 0, 0, 0, 0],
                tag,
                content: &bytes,
            },)
        );
        Ok(())
    }

    #[test]
    fn damaged_frames(rt: HostRuntime) {
        let mut frames = [0u8; 32];
        assert!(rt; check_frame::<Quote>(&frames) == Err(fault(Cause::Kind, 0)));
        assert!(rt; check_frame::<Quote>(&frames[0..31]) == Err(fault(Cause::Rest, 0)));
        frames[0] = 8;
        assert_eq!(rt; read::<Quote>(&frames), Err(fault(Cause::Kind, 0)));
        frames[0..9].copy_from_slice(&[3, 2, 1, 0, 0, 1, 0, 0, 1]);
        assert_eq!(rt; read::<Quote>(&frames), Err(fault(Cause::Field, 8)));
        frames[8] = 0;
        frames[9] = 1;
        assert_eq!(rt; read::<Quote>(&frames), Err(fault(Cause::Content, 9)));
        frames[9] = 0;
        frames[31] = 1;
        assert_eq!(rt; read::<Quote>(&frames), Err(fault(Cause::Rest, 17)));
    }
}

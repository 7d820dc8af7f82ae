//! A shared prompt, as its requests see it.

ghost use Rattle.std.specs.Prelude.{◌≡◌, ◌∷◌, [], IfOk};
ghost use Rattle.prompt_queue.specs.declared.queue.PromptTake.TheVariants.{Pending};

use crate::{Joined, PromptQueue, PromptTake};
use auth_events::Loss;
use auth_text::NoMemory;
use std::alloc::Global;
use std::process::Abort;
use std::test::Fail;

/// Three requests of space 1: the first leads, the others follow, and nothing can be taken yet.
fn shared(rt: &impl Abort, alloc: Global) -> Result<PromptQueue, NoMemory>
    ensures { IfOk result (λ queue. queue
        ≡ record {
          requests = 3;
          spaces = 2;
          prompts = record { number = 1; space = 1; request = 1; ending = Pending } ∷ [];
        }) }
{
    let mut queue = PromptQueue::new(alloc, 3)?;
    queue.add_space(1)?;
    assert_eq!(rt;
        queue.open_or_join(1, 1),
        Joined::Lead {
            prompt: 1,
            ordinal: 1
        }
    );
    assert_eq!(rt; queue.open_or_join(1, 2), Joined::Follow { prompt: 1 });
    assert_eq!(rt; queue.open_or_join(1, 3), Joined::Follow { prompt: 1 });
    assert_eq!(rt; queue.take(1, 2), PromptTake::Pending);
    Ok(queue)
}

#[test]
fn all_take_the_one_answer(rt: HostRuntime) -> Result<(), Fail> {
    for (ordinal, wanted) in [
        (0, PromptTake::Cancelled),
        (7, PromptTake::Gave { ordinal: 7 }),
    ] {
        let mut queue = shared(&rt, rt.alloc())?;
        queue.answer(1, ordinal);
        assert_eq!(rt; queue.ending(1), wanted);
        assert_eq!(rt; queue.take(1, 3), wanted);
        assert_eq!(rt; queue.take(1, 2), wanted);
    }
    for loss in [Loss::Fault(5), Loss::Memory] {
        let mut queue = shared(&rt, rt.alloc())?;
        queue.lose(1, loss);
        assert_eq!(rt; queue.take(1, 3), PromptTake::Lost { loss });
        assert_eq!(rt; queue.take(1, 2), PromptTake::Lost { loss });
    }
    Ok(())
}

#[test]
fn an_answer_is_kept_for_those_who_come_late(rt: HostRuntime) -> Result<(), Fail> {
    let mut queue = shared(&rt, rt.alloc())?;
    queue.answer(1, 1);
    queue.add_space(4)?;
    let leads = Joined::Lead {
        prompt: 2,
        ordinal: 2,
    };
    assert_eq!(rt; queue.joining(1), leads);
    assert_eq!(rt; queue.open_or_join(1, 1), leads);
    assert_eq!(rt;
        queue.open_or_join(4, 2),
        Joined::Lead {
            prompt: 3,
            ordinal: 1
        }
    );
    queue.answer(2, 2);
    assert_eq!(rt; queue.take(1, 3), PromptTake::Gave { ordinal: 1 });
    assert_eq!(rt; queue.take(3, 3), PromptTake::Pending);
    Ok(())
}

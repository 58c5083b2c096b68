//! What the definitions say of examples. This function does nothing; its contract is the laws.
ghost use Rattle.std.specs.Prelude.{◌≡◌, ◌++◌, [], ◌∷◌, codes};
ghost use Rattle.osc_tree.specs.Adding.{taken, under_method, is_container, methods_full};
ghost use Rattle.osc_tree.specs.Adding.{nodes_full};
ghost use Rattle.osc_model.specs.Events.{enrol, add, remove, submit, tick, release, number};
ghost use Rattle.osc_model.specs.Events.{callers_full, queued, units_full, pool_full, added};
ghost use Rattle.osc_model.specs.Events.{refused, removed, not_there, ticked, clock_back, released};
ghost use Rattle.osc_model.specs.declared.late.Late.TheVariants.{Discard};
ghost use Rattle.osc_model.specs.Samples.{least_limits, usual_limits};
ghost use Rattle.osc_print.specs.Entries.{event_line, invocation_text};
ghost use Rattle.osc_print.specs.Lines.{fault_text, link_fault_text, list_text, method_text};
ghost use Rattle.osc_print.specs.Dates.{date_text};
ghost use Rattle.osc_print.specs.Dumps.{dumped};

/// A line of each kind of answer, the lines of a call and of faults, dates, and a dump.
pub fn examples()
    ensures number { event_line (record { caller = 0; event = enrol; answer = number 1 })
        ≡ codes "enrol 0 1\n" }
    ensures list { list_text 4 ≡ codes "list 4\n" }
    ensures method { method_text 1 (codes "/a/x") ≡ codes "method 1 /a/x\n" }
    ensures callers_full { event_line (record { caller = 3; event = enrol; answer = callers_full })
        ≡ codes "enrol 3 full\n" }
    ensures queued { event_line (record { caller = 0; event = submit []; answer = queued 12 2 0 })
        ≡ codes "submit 0 queued 12 2\n" }
    ensures late { event_line (record { caller = 0; event = submit []; answer = queued 12 2 1 })
        ≡ codes "submit 0 queued 12 2 late 1\n" }
    ensures units_full { event_line
        (record {
          caller = 1;
          event = submit [];
          answer = units_full (record { need = 3; free = 2 });
        }) ≡ codes "submit 1 units-full 3 2\n" }
    ensures pool_full { event_line
        (record {
          caller = 0;
          event = submit [];
          answer = pool_full (record { need = 1; free = 0 });
        }) ≡ codes "submit 0 pool-full 1 0\n" }
    ensures added { event_line
        (record { caller = 0; event = add (codes "/light/dim"); answer = added 0 })
        ≡ codes "add 0 /light/dim id 0\n" }
    ensures taken { event_line
        (record { caller = 0; event = add (codes "/a"); answer = refused (taken 7) })
        ≡ codes "add 0 /a taken 7\n" }
    ensures under_method { event_line
        (record { caller = 0; event = add (codes "/a/b"); answer = refused (under_method 7) })
        ≡ codes "add 0 /a/b under-method 7\n" }
    ensures is_container { event_line
        (record { caller = 0; event = add (codes "/a"); answer = refused is_container })
        ≡ codes "add 0 /a is-container\n" }
    ensures methods_full { event_line
        (record { caller = 0; event = add (codes "/a"); answer = refused (methods_full 1024) })
        ≡ codes "add 0 /a methods-full 1024\n" }
    ensures nodes_full { event_line
        (record { caller = 0; event = add (codes "/a/b"); answer = refused (nodes_full 2 1) })
        ≡ codes "add 0 /a/b nodes-full 2 1\n" }
    ensures removed { event_line
        (record { caller = 2; event = remove (codes "/a"); answer = removed 5 })
        ≡ codes "remove 2 /a id 5\n" }
    ensures not_there { event_line
        (record { caller = 2; event = remove (codes "/a"); answer = not_there })
        ≡ codes "remove 2 /a not-there\n" }
    ensures ticked { event_line (record { caller = 0; event = tick 5; answer = ticked })
        ≡ codes "tick 0 0000000000000005 ticked\n" }
    ensures clock_back { event_line (record { caller = 0; event = tick 0; answer = clock_back 1 })
        ≡ codes "tick 0 0000000000000000 clock-back 0000000000000001\n" }
    ensures released { event_line
        (record {
          caller = 0;
          event = release;
          answer = released 12 (record { index = 0; id = 4 } ∷ record { index = 1; id = 4 } ∷ []);
        })
        ≡ codes "release 0 12 2\n" }
    ensures call { invocation_text
        (record {
          unit = 0;
          call = record {
            index = 0;
            id = 0;
            address = codes "/light/dim";
            message = codes "/light/dim\0\0,i\0\0\0\0\0\u{7}";
          };
        })
        ≡ codes "call 0 0 0 /light/dim ,i i:7\n" }
    ensures fault { fault_text 2 (record { kind = 14; at = 8 }) ≡ codes "fault 2 14 8\n" }
    ensures link_fault { link_fault_text 0 2 (record { kind = 2; at = 30 })
        ≡ codes "fault link 0 datagram 2 2 30\n" }
    ensures first_second { date_text 0 ≡ codes "1900-01-01T00:00:00Z" }
    ensures last_second { date_text 4_294_967_295 ≡ codes "2036-02-07T06:28:15Z" }
    ensures unix_epoch { date_text 2_208_988_800 ≡ codes "1970-01-01T00:00:00Z" }
    ensures leap_day { date_text 3_160_857_599 ≡ codes "2000-02-29T23:59:59Z" }
    ensures dump { dumped (usual_limits 1)
        (record { caller = 0; event = tick 0x83aa_7e80_0000_0000; answer = ticked } ∷ [])
        ≡ codes "rec 2 4096 16384 1024 4096 1 67108864 deliver\n"
        ++ codes "60 tick 0 83aa7e8000000000 ticked 1970-01-01T00:00:00Z\n" }
    ensures discards { dumped (record (least_limits 1 60) { late = Discard }) []
        ≡ codes "rec 2 1 1 1 1 1 60 discard\n" }
{}

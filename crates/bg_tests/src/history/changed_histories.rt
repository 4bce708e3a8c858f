//! Changed histories of worked rows, and whether each is legal and settled. Written by tools/changed_histories.py.

/// The histories, with an empty line between two. The first word of a line says what it is: `row`, the name of its row;
/// `strategy`, the document of its strategy; `play`, a line after `open v1 9001 9002`; `entry`, an entry of its history;
/// `good` or `bad`, a change of its entries, and whether the changed history is legal and settled. (One text costs less to
/// prove than a table of texts.)
pub(super) const CHANGED: &str = r#"row abort_at_the_latest_moment
strategy {"spec": {"replicas": 2, "strategy": {"blueGreen": {"activeService": "web", "abortScaleDownDelaySeconds": 2147483647}}}}
play tick 9007199254740992
play deploy v2 9101 9102
play abort
play report
play deploy v1 9001 9002
entry tick 9007199254740992
entry deploy 2 v2 9101 9102
entry abort
entry deploy 1 v1 9001 9002
entry scaled_down 2
good double 0
good drop 2
bad move 2 3

row aborted_revision_after_its_delay
strategy {"spec": {"replicas": 2, "strategy": {"blueGreen": {"activeService": "web", "prePromotionAnalysis": {"templates": []}}}}}
play deploy v2 9101 9102
play available 2 2
play promote
play verdict pre failed
play tick 29
play tick 30
play report
play available 2 1
play retry
play report
play available 2 2
entry deploy 2 v2 9101 9102
entry available 2 2
entry ready 2
entry verdict pre failed
entry tick 29
entry tick 30
entry scaled_down 2
entry retry
entry available 2 2
entry ready 2
good change 0 deploy 2 v3 9101 9102
good change 0 deploy 2 v2 9101 9103
good change 4 tick 30
bad change 7 promote
bad change 7 promote_full
good double 1
bad drop 1
bad drop 9
bad move 4 7
bad move 9 7

row aborted_revision_drains
strategy {"spec": {"replicas": 2, "strategy": {"blueGreen": {"activeService": "web", "postPromotionAnalysis": {}}}}}
play available 1 2
play deploy v2 9101 9102
play available 2 2
play enter 0 active
play abort
play tick 30
play report
play leave 0
play report
entry available 1 2
entry deploy 2 v2 9101 9102
entry available 2 2
entry ready 2
entry resumed 2
entry switched 2
entry enter 0 active 1 2 9102
entry abort
entry tick 30
entry leave 0 1 2
entry scaled_down 2
good change 1 deploy 2 v3 9101 9102
bad change 5 promoted 2
bad change 7 retry
good change 8 tick 31
bad change 9 leave 0 2 2
good double 8
good drop 0
bad drop 10
good move 0 7
bad move 7 0
bad move 8 6
good move 9 8

row drain_limit_ten
strategy {"spec": {"replicas": 2, "strategy": {"blueGreen": {"activeService": "web", "drainLimitSeconds": 10}}}}
play available 1 2
play enter 0 active
play deploy v2 9101 9102
play available 2 2
play tick 30
play report
play tick 39
play report
play tick 40
play report
play leave 0
play report
entry available 1 2
entry enter 0 active 1 1 9002
entry deploy 2 v2 9101 9102
entry available 2 2
entry ready 2
entry resumed 2
entry switched 2
entry promoted 2
entry tick 30
entry tick 39
entry tick 40
entry leave 0 1 1
entry scaled_down 1
bad change 1 enter 1 active 1 1 9002
good change 2 deploy 2 v3 9101 9102
bad change 5 switched 2
bad change 7 resumed 2
good double 10
bad move 0 9
bad move 8 9

row failed_pre_analysis_and_retry
strategy {"spec": {"replicas": 2, "strategy": {"blueGreen": {"activeService": "web", "prePromotionAnalysis": {"templates": []}}}}}
play deploy v2 9101 9102
play available 2 2
play promote
play verdict pre failed
play report
play verdict pre failed
play promote
play abort
play deploy v2 9101 9102
play retry
play report
play verdict pre successful
entry deploy 2 v2 9101 9102
entry available 2 2
entry ready 2
entry verdict pre failed
entry retry
entry ready 2
entry verdict pre successful
entry resumed 2
entry switched 2
entry promoted 2
good change 0 deploy 2 v2 9001 9102
bad change 7 removed 2
bad change 9 removed 2
bad change 9 promoted 3
bad drop 9
bad move 2 1
bad move 2 3
bad move 6 0

row fails_back_over_two_revisions_without_abort_delay
strategy {"spec": {"replicas": 2, "strategy": {"blueGreen": {"activeService": "web", "postPromotionAnalysis": {}, "abortScaleDownDelaySeconds": 0}}}}
play available 1 2
play deploy v2 9101 9102
play available 2 2
play deploy v3 9201 9202
play available 3 2
play report
play verdict post failed
play report
play tick 30
play report
entry available 1 2
entry deploy 2 v2 9101 9102
entry available 2 2
entry ready 2
entry resumed 2
entry switched 2
entry deploy 3 v3 9201 9202
entry available 3 2
entry ready 3
entry resumed 3
entry switched 3
entry verdict post failed
entry tick 30
entry scaled_down 2
good change 1 deploy 2 v2 9101 9001
good change 6 deploy 3 v3 9101 9202
good change 6 deploy 3 v3 9201 9001
good change 6 deploy 3 v3 9201 9101
bad change 8 removed 3
bad double 1
bad drop 13

row full_promotion
strategy {"spec": {"replicas": 2, "strategy": {"blueGreen": {"activeService": "web", "prePromotionAnalysis": {"templates": []}, "postPromotionAnalysis": {}}}}}
play promote full
play deploy v2 9101 9102
play promote full
play promote full
play available 2 2
entry deploy 2 v2 9101 9102
entry promote_full
entry available 2 2
entry ready 2
entry resumed 2
entry switched 2
entry promoted 2
bad double 1
bad drop 0
bad drop 6
bad move 0 1
bad move 0 6
bad move 5 3

row full_promotion_after_the_switch
strategy {"spec": {"replicas": 2, "strategy": {"blueGreen": {"activeService": "web", "postPromotionAnalysis": {}}}}}
play deploy v2 9101 9102
play available 2 2
play promote full
entry deploy 2 v2 9101 9102
entry available 2 2
entry ready 2
entry resumed 2
entry switched 2
entry promote_full
entry promoted 2
good change 0 deploy 2 v2 9103 9102
bad change 5 retry
bad drop 6

row manual_promotion
strategy {"spec": {"replicas": 2, "strategy": {"blueGreen": {"activeService": "web", "autoPromotionEnabled": false}}}}
play deploy v2 9101 9102
play promote
play available 2 2
play report
play available 2 1
play promote
play report
play available 2 2
play report
entry deploy 2 v2 9101 9102
entry available 2 2
entry ready 2
entry available 2 1
entry promote
entry resumed 2
entry available 2 2
entry switched 2
entry promoted 2
good change 0 deploy 2 v3 9101 9102
bad drop 8
good move 4 3

row manual_promotion_with_preview
strategy {"spec": {"replicas": 2, "strategy": {"blueGreen": {"activeService": "web", "autoPromotionEnabled": false, "previewService": "web-preview"}}}}
play available 1 2
play deploy v2 9101 9102
play available 2 2
play report
play enter 0 active
play enter 1 preview
play promote
play promote
play abort
play retry
entry available 1 2
entry deploy 2 v2 9101 9102
entry available 2 2
entry ready 2
entry enter 0 active 1 1 9002
entry enter 1 preview 2 2 9101
entry promote
entry resumed 2
entry switched 2
entry promoted 2
entry leave 0 1 1
entry leave 1 2 2
bad change 0 available 2 2
good change 1 deploy 2 v2 9101 9001
bad change 2 available 2 3
good change 6 promote_full
bad drop 3
good drop 10
good move 3 4
bad move 6 0

row moments_and_bad_arguments
strategy {"spec": {"replicas": 2, "strategy": {"blueGreen": {"activeService": "web"}}}}
play tick 5
play tick 4
play tick 5
play tick 9007199254740993
play tick 9007199254740992
play available 2 0
play deploy V2 1 2
play deploy v2 1
play deploy v2 7 7
entry tick 5
entry tick 5
entry tick 9007199254740992
good change 2 tick 9007199254740991

row no_drain_limit
strategy {"spec": {"replicas": 2, "strategy": {"blueGreen": {"activeService": "web"}}}}
play available 1 2
play enter 0 active
play deploy v2 9101 9102
play available 2 2
play tick 30
play tick 9007199254740992
play report
entry available 1 2
entry enter 0 active 1 1 9002
entry deploy 2 v2 9101 9102
entry available 2 2
entry ready 2
entry resumed 2
entry switched 2
entry promoted 2
entry tick 30
entry tick 9007199254740992
entry leave 0 1 1
entry scaled_down 1
bad change 0 available 2 2
bad change 1 enter 0 active 1 2 9002
good change 2 deploy 2 v2 9001 9102
good change 2 deploy 2 v2 9101 9001
bad change 7 promoted 1
bad change 7 ready 2
bad change 7 promoted 3
good change 8 tick 29
bad change 10 leave 0 1 0
good double 8
bad double 10
bad drop 11
bad move 0 7
bad move 8 9
bad move 9 6
good move 10 7
bad move 11 5

row pause_begins_after_the_analysis
strategy {"spec": {"replicas": 2, "strategy": {"blueGreen": {"activeService": "web", "prePromotionAnalysis": {}, "autoPromotionSeconds": 10}}}}
play deploy v2 9101 9102
play available 2 2
play report
play tick 20
play verdict pre successful
play report
play tick 29
play tick 30
entry deploy 2 v2 9101 9102
entry available 2 2
entry ready 2
entry tick 20
entry verdict pre successful
entry tick 29
entry tick 30
entry resumed 2
entry switched 2
entry promoted 2
good change 5 tick 28
bad drop 9
bad move 0 8
good move 3 2
good move 3 4

row pause_by_seconds
strategy {"spec": {"replicas": 2, "strategy": {"blueGreen": {"activeService": "web", "autoPromotionSeconds": 10}}}}
play deploy v2 9101 9102
play tick 5
play available 2 2
play tick 14
play report
play tick 15
play report
entry deploy 2 v2 9101 9102
entry tick 5
entry available 2 2
entry ready 2
entry tick 14
entry tick 15
entry resumed 2
entry switched 2
entry promoted 2
bad change 2 available 2 1
bad double 7
good move 1 2
good move 1 3
bad move 5 3
bad move 7 6

row post_analysis_promotes
strategy {"spec": {"replicas": 2, "strategy": {"blueGreen": {"activeService": "web", "postPromotionAnalysis": {}}}}}
play deploy v2 9101 9102
play available 2 2
play report
play verdict pre successful
play verdict post successful
play report
entry deploy 2 v2 9101 9102
entry available 2 2
entry ready 2
entry resumed 2
entry switched 2
entry verdict post successful
entry promoted 2
good change 0 deploy 2 v2 9103 9102
bad move 2 4
bad move 5 2

row preview_size
strategy {"spec": {"replicas": 2, "strategy": {"blueGreen": {"activeService": "web", "previewReplicaCount": 1, "autoPromotionEnabled": false}}}}
play deploy v2 9101 9102
play available 2 1
play available 2 2
play promote
play report
play available 2 2
entry deploy 2 v2 9101 9102
entry available 2 1
entry ready 2
entry promote
entry resumed 2
entry available 2 2
entry switched 2
entry promoted 2
bad change 6 scaled_down 2
bad change 7 resumed 2
bad change 7 scaled_down 2
bad drop 7

row removes_when_the_last_request_leaves
strategy {"spec": {"replicas": 2, "strategy": {"blueGreen": {"activeService": "web"}}, "revisionHistoryLimit": 0}}
play available 1 2
play enter 0 active
play deploy v2 9101 9102
play available 2 2
play tick 30
play leave 0
play report
play deploy v1 9001 9002
play report
entry available 1 2
entry enter 0 active 1 1 9002
entry deploy 2 v2 9101 9102
entry available 2 2
entry ready 2
entry resumed 2
entry switched 2
entry promoted 2
entry tick 30
entry leave 0 1 1
entry scaled_down 1
entry removed 1
entry deploy 3 v1 9001 9002
bad change 1 enter 0 active 1 2 9002
good change 2 deploy 2 v2 9103 9102
bad change 10 promoted 1
good move 9 7
bad move 9 12

row requests_enter_and_leave
strategy {"spec": {"replicas": 2, "strategy": {"blueGreen": {"activeService": "web"}}}}
play available 1 2
play enter 0 active
play enter 0 active
play enter 1 active
play leave 0
play report
entry available 1 2
entry enter 0 active 1 1 9002
entry enter 1 active 2 1 9001
entry leave 0 1 1
entry leave 1 2 1
bad change 4 leave 0 2 1

row retry_after_a_failed_post_analysis
strategy {"spec": {"replicas": 2, "strategy": {"blueGreen": {"activeService": "web", "postPromotionAnalysis": {}}}}}
play available 1 2
play deploy v2 9101 9102
play available 2 2
play report
play tick 40
play report
play verdict pre failed
play verdict post error
play report
play retry
play report
entry available 1 2
entry deploy 2 v2 9101 9102
entry available 2 2
entry ready 2
entry resumed 2
entry switched 2
entry tick 40
entry verdict post error
entry retry
entry ready 2
entry resumed 2
entry switched 2
bad change 1 deploy 1 v2 9101 9102
bad change 5 removed 2
bad change 8 abort
bad change 8 promote
bad drop 5
bad drop 11
bad move 7 2
good move 7 6
bad move 7 8
bad move 8 1
bad move 10 11

row retry_before_the_abort_delay_is_over
strategy {"spec": {"replicas": 2, "strategy": {"blueGreen": {"activeService": "web", "prePromotionAnalysis": {}}}}}
play deploy v2 9101 9102
play available 2 2
play tick 5
play verdict pre failed
play tick 34
play retry
play tick 35
play report
entry deploy 2 v2 9101 9102
entry available 2 2
entry ready 2
entry tick 5
entry verdict pre failed
entry tick 34
entry retry
entry ready 2
entry tick 35
good change 0 deploy 2 v2 9001 9102
good change 0 deploy 2 v2 9101 9103
good change 0 deploy 2 v2 9103 9102
good change 5 tick 33
bad change 6 abort
good change 8 tick 34
bad drop 4
bad drop 7
bad move 1 7
bad move 5 8

row retry_once_the_abort_delay_is_over
strategy {"spec": {"replicas": 2, "strategy": {"blueGreen": {"activeService": "web", "prePromotionAnalysis": {}}}}}
play deploy v2 9101 9102
play available 2 2
play tick 5
play verdict pre error
play tick 35
play retry
play report
play available 2 2
entry deploy 2 v2 9101 9102
entry available 2 2
entry ready 2
entry tick 5
entry verdict pre error
entry tick 35
entry scaled_down 2
entry retry
entry available 2 2
entry ready 2
good change 0 deploy 2 v2 9101 9103
bad change 2 promoted 2
good change 3 tick 4
bad change 7 abort
bad change 7 promote
bad change 7 promote_full
bad change 8 available 2 3
good double 3
bad drop 9
good move 4 3
bad move 7 3

row reverts_before_the_switch
strategy {"spec": {"replicas": 2, "strategy": {"blueGreen": {"activeService": "web"}}}}
play deploy v2 9101 9102
play deploy v1 9001 9002
play report
play deploy v1 9001 9002
play deploy v2 9101 9103
entry deploy 2 v2 9101 9102
entry deploy 1 v1 9001 9002
entry scaled_down 2
good change 0 deploy 2 v4 9101 9102
bad change 1 deploy 1 V4 9001 9002
bad change 1 deploy 1 v1 9001 9101

row reverts_to_the_stable_revision
strategy {"spec": {"replicas": 2, "strategy": {"blueGreen": {"activeService": "web", "postPromotionAnalysis": {}}}}}
play available 1 2
play deploy v2 9101 9102
play available 2 2
play tick 40
play deploy v1 9001 9002
play report
play deploy v1 9001 9002
play deploy v1 9001 9003
play deploy v2 9101 9103
play tick 70
entry available 1 2
entry deploy 2 v2 9101 9102
entry available 2 2
entry ready 2
entry resumed 2
entry switched 2
entry tick 40
entry deploy 1 v1 9001 9002
entry tick 70
entry scaled_down 2
good change 1 deploy 2 v2 9103 9102
good double 6
good drop 0
bad drop 9
good move 0 3
good move 0 5
good move 1 0

row reverts_while_draining
strategy {"spec": {"replicas": 2, "strategy": {"blueGreen": {"activeService": "web"}}}}
play available 1 2
play enter 0 active
play deploy v2 9101 9102
play available 2 2
play tick 30
play deploy v1 9001 9002
play report
play leave 0
play report
entry available 1 2
entry enter 0 active 1 1 9002
entry deploy 2 v2 9101 9102
entry available 2 2
entry ready 2
entry resumed 2
entry switched 2
entry promoted 2
entry tick 30
entry deploy 1 v1 9001 9002
entry ready 1
entry resumed 1
entry switched 1
entry promoted 1
entry leave 0 1 1
bad change 0 available 1 1
bad change 1 enter 0 active 1 2 9002
good change 2 deploy 2 v3 9101 9102
bad change 14 leave 0 0 1
bad change 14 leave 1 1 1
bad drop 13
bad move 1 11
bad move 4 5
bad move 5 14
good move 8 7
good move 8 9
bad move 8 13
good move 14 5

row revision_limit_one
strategy {"spec": {"replicas": 2, "strategy": {"blueGreen": {"activeService": "web", "scaleDownDelayRevisionLimit": 1}}}}
play deploy v2 9101 9102
play available 2 2
play deploy v3 9201 9202
play available 3 2
play report
entry deploy 2 v2 9101 9102
entry available 2 2
entry ready 2
entry resumed 2
entry switched 2
entry promoted 2
entry deploy 3 v3 9201 9202
entry available 3 2
entry ready 3
entry resumed 3
entry switched 3
entry promoted 3
entry scaled_down 1
good change 6 deploy 3 v3 9201 9102

row revision_limit_zero
strategy {"spec": {"replicas": 2, "strategy": {"blueGreen": {"activeService": "web", "scaleDownDelayRevisionLimit": 0}}}}
play deploy v2 9101 9102
play available 2 2
play deploy v3 9201 9202
play available 3 2
entry deploy 2 v2 9101 9102
entry available 2 2
entry ready 2
entry resumed 2
entry switched 2
entry promoted 2
entry scaled_down 1
entry deploy 3 v3 9201 9202
entry available 3 2
entry ready 3
entry resumed 3
entry switched 3
entry promoted 3
entry scaled_down 2
bad change 0 deploy 3 v2 9101 9102
bad change 5 removed 2
good change 7 deploy 3 v3 9201 9001
good change 7 deploy 3 v3 9201 9103
bad change 7 deploy 3 V4 9201 9202
bad change 9 resumed 3
bad drop 2
bad drop 6
bad move 0 7
good move 6 13

row seconds_ignored_without_auto_promotion
strategy {"spec": {"replicas": 2, "strategy": {"blueGreen": {"activeService": "web", "autoPromotionEnabled": false, "autoPromotionSeconds": 10}}}}
play deploy v2 9101 9102
play available 2 2
play tick 100
play report
play promote
entry deploy 2 v2 9101 9102
entry available 2 2
entry ready 2
entry tick 100
entry promote
entry resumed 2
entry switched 2
entry promoted 2
good change 0 deploy 2 v3 9101 9102
good change 3 tick 99
bad change 5 removed 2
good double 1
good double 4
good move 3 5
bad move 4 2

row superseded_after_an_abort
strategy {"spec": {"replicas": 2, "strategy": {"blueGreen": {"activeService": "web", "prePromotionAnalysis": {"templates": []}}}}}
play deploy v2 9101 9102
play available 2 2
play promote
play verdict pre failed
play deploy v3 9201 9202
play report
entry deploy 2 v2 9101 9102
entry available 2 2
entry ready 2
entry verdict pre failed
entry deploy 3 v3 9201 9202
entry scaled_down 2
bad change 3 verdict post failed
good change 3 verdict pre error

row superseded_while_active
strategy {"spec": {"replicas": 2, "strategy": {"blueGreen": {"activeService": "web", "postPromotionAnalysis": {}}}}}
play available 1 2
play deploy v2 9101 9102
play available 2 2
play deploy v3 9201 9202
play report
play abort
play report
play tick 30
entry available 1 2
entry deploy 2 v2 9101 9102
entry available 2 2
entry ready 2
entry resumed 2
entry switched 2
entry deploy 3 v3 9201 9202
entry abort
entry tick 30
entry scaled_down 2
entry scaled_down 3
bad change 1 deploy 2 v2 0 9102
bad change 7 promote
bad double 7
good drop 0
good move 0 8
bad move 7 1

row switches_and_scales_down
strategy {"spec": {"replicas": 2, "strategy": {"blueGreen": {"activeService": "web"}}}}
play deploy v2 9101 9102
play available 2 2
play tick 29
play tick 30
play report
entry deploy 2 v2 9101 9102
entry available 2 2
entry ready 2
entry resumed 2
entry switched 2
entry promoted 2
entry tick 29
entry tick 30
entry scaled_down 1
good change 0 deploy 2 v2 9001 9102
good change 0 deploy 2 v2 9101 9103
bad change 2 scaled_down 2
good double 7
bad move 0 5

row unscaled_revision_is_not_superseded
strategy {"spec": {"replicas": 2, "strategy": {"blueGreen": {"activeService": "web", "prePromotionAnalysis": {}}}}}
play deploy v2 9101 9102
play available 2 2
play verdict pre failed
play tick 30
play deploy v3 9201 9202
play report
entry deploy 2 v2 9101 9102
entry available 2 2
entry ready 2
entry verdict pre failed
entry tick 30
entry scaled_down 2
entry deploy 3 v3 9201 9202
good change 6 deploy 3 v3 9201 9101
good change 6 deploy 3 v3 9201 9102
good double 1
bad drop 5
good drop 6"#;
